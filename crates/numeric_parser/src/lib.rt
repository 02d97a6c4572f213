// The parsers of numeric expressions: what they read goes to the item rows of the table, the names mentioned behind those before.
// Assumes nothing.
#![tactic(auto)]

pub mod operands;

ghost use Rattle.std.specs.Prelude.{◌≡◌, ◌≤◌, length};
ghost use Rattle.base.specs.Current.{table_size};
ghost use Rattle.encoding.specs.Meaning.{cell_meaning};
ghost use Rattle.encoding.specs.Table.{cell, item_cell};
ghost use Rattle.symbols.specs.Bounds.{far_enough};
ghost use Rattle.numeric_parser.specs.Operands.{ReaderReady};
ghost use Rattle.numeric_parser.specs.Kinds.{mark_at, PutsCell, ItemsPut, OperandWritten};
ghost use Rattle.numeric_parser.specs.Reads.{mark_item, waiting, FactorRead, ExpressionRead, TermRead};

use base::DEEPEST;
use encoding::cell_kinds;
use encoding::cells::Cell;
use lexer::stands_at;
use operands::{marked, plain, skip};
use symbols::known::Known;
use symbols::{Cursor, Mentioned, put_item};

// a mark whose item waits for what stands behind it: an operator, or the sign of an expression
// kept: decoder has Operator and Sign apart, since in a run one takes two numbers, the other one; here all six are written alike, by their kinds
#[derive(Clone, Copy)]
pub enum Mark {
    Plus,
    Minus,
    Times,
    Over,
    Positive,
    Negative,
}

impl Mark {
    // the kind of its item's cell
    #[tactic(auto, unfolding(encoding::specs::Table::item_cell))]
    fn kind(self) -> u8
        ensures { cell result 0 0 ≡ item_cell (mark_item self) }
    {
        match self {
            Mark::Plus => cell_kinds::PLUS,
            Mark::Minus => cell_kinds::MINUS,
            Mark::Times => cell_kinds::TIMES,
            Mark::Over => cell_kinds::OVER,
            Mark::Positive => cell_kinds::POSITIVE,
            Mark::Negative => cell_kinds::NEGATIVE,
        }
    }
}

// the mark at a place, of two that may stand there
fn mark_at(text: &[u8], at: usize, first: u8, one: Mark, second: u8, other: Mark) -> Option<Mark>
    ensures { result ≡ mark_at first one second other text.now at }
{
    if stands_at(text, at, first) {
        Some(one)
    } else {
        stands_at(text, at, second).then_some(other)
    }
}

// how many items wait
fn size(mark: Option<Mark>) -> usize
    ensures { result ≡ length (waiting mark) }
{
    usize::from(mark.is_some())
}

// writes the next item
fn put(table: &mut [u8], c: Cursor, cell: Cell) -> Cursor
    requires { (table_size ≤ length table.old) × (c.items ≤ far_enough) }
    ensures { PutsCell table.old c (cell_meaning cell) table.new result }
{
    put_item(table, c.items, cell);
    Cursor {
        items: c.items + 1,
        ..c
    }
}

// writes what waits
#[tactic(auto, using(crate::specs::KindLaws::puts_waiting, crate::specs::KindLaws::puts_nothing))]
fn put_mark(table: &mut [u8], c: Cursor, mark: Option<Mark>) -> Cursor
    requires { (table_size ≤ length table.old) × (c.items ≤ far_enough) }
    ensures { ItemsPut table.old c (waiting mark) table.new result }
{
    match mark {
        Some(mark) => {
            let cell = Cell {
                kind: mark.kind(),
                place: 0,
                value: 0,
            };
            put(table, c, cell)
        }
        None => c,
    }
}

// writes the operand at the cursor
#[tactic(auto, using(crate::specs::KindLaws::items_lost, crate::specs::KindLaws::operand_broken, crate::specs::ReadLaws::operand_written))]
fn write_operand(
    text: &[u8],
    known: &Known,
    table: &mut [u8],
    mentioned: &mut Mentioned,
    c: Cursor,
) -> Option<Cursor>
    requires reader_ready { ReaderReady text.now c }
    requires table_size_in_bounds { table_size ≤ length table.old }
    ensures { OperandWritten text.now known.now table.old mentioned.old c result
        table.new mentioned.new }
{
    let (cell, d) = plain(text, known, mentioned, c)?;
    Some(put(table, d, cell))
}

// an expression at a depth of parentheses: each operator, and the sign of the first term, is written behind the term it stands before
// kept: a loop from mark to mark, here and of a term, which counts nothing; as an iterator it would be a struct of all six parameters
#[cycle(expression_factor_term)]
pub fn expression(
    text: &[u8],
    known: &Known,
    table: &mut [u8],
    mentioned: &mut Mentioned,
    c: Cursor,
    depth: usize,
) -> Option<Cursor>
    requires reader_ready { ReaderReady text.now c }
    requires table_size_in_bounds { table_size ≤ length table.old }
    ensures { ExpressionRead text.now known.now table.old mentioned.old c depth result
        table.new mentioned.new }
{
    // what waits for the next term
    let mut mark = mark_at(text, c.at, b'+', Mark::Positive, b'-', Mark::Negative);
    let mut d = skip(c, size(mark));
    loop {
        let e = term(text, known, table, mentioned, d, depth)?;
        let f = put_mark(table, e, mark);
        mark = mark_at(text, f.at, b'+', Mark::Plus, b'-', Mark::Minus);
        if mark.is_none() {
            return Some(f);
        }
        d = skip(f, 1);
    }
}

// a term: each operator is written behind the factor it stands before
// kept: a term is read as an expression is, but each reads the other; one function for both would take the mark that waits at first, two marks with
// their bytes, and what reads an operand: a closure that writes table and names, of which no contract says what it leaves, or a test at every turn
#[cycle(expression_factor_term)]
fn term(
    text: &[u8],
    known: &Known,
    table: &mut [u8],
    mentioned: &mut Mentioned,
    c: Cursor,
    depth: usize,
) -> Option<Cursor>
    requires reader_ready { ReaderReady text.now c }
    requires table_size_in_bounds { table_size ≤ length table.old }
    ensures { TermRead text.now known.now table.old mentioned.old c depth result
        table.new mentioned.new }
{
    // what waits for the next factor: nothing at first
    let mut mark: Option<Mark> = None;
    let mut d = c;
    loop {
        let e = factor(text, known, table, mentioned, d, depth)?;
        let f = put_mark(table, e, mark);
        mark = mark_at(text, f.at, b'*', Mark::Times, b'/', Mark::Over);
        if mark.is_none() {
            return Some(f);
        }
        d = skip(f, 1);
    }
}

// an operand, or an expression in parentheses
#[cycle(expression_factor_term)]
fn factor(
    text: &[u8],
    known: &Known,
    table: &mut [u8],
    mentioned: &mut Mentioned,
    c: Cursor,
    depth: usize,
) -> Option<Cursor>
    requires reader_ready { ReaderReady text.now c }
    requires table_size_in_bounds { table_size ≤ length table.old }
    ensures { FactorRead text.now known.now table.old mentioned.old c depth result
        table.new mentioned.new }
{
    let Some(open) = marked(text, c, b'(') else {
        return write_operand(text, known, table, mentioned, c);
    };
    if DEEPEST <= depth {
        return None;
    }
    let d = expression(text, known, table, mentioned, open, depth + 1)?;
    marked(text, d, b')')
}
