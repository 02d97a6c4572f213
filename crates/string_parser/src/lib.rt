// The parsers of string expressions and patterns: what they read goes to the element rows and literal bytes of the table, the names mentioned
// to those of the statement.
// Assumes nothing.
// kept: text, names, table and cursor are passed one by one, with ReaderReady as a clause, as numeric_parser/operands says
#![tactic(auto)]

pub mod cells;
pub mod literals;

ghost use Rattle.std.specs.Prelude.{◌≡◌, ◌≤◌, length, drop};
ghost use Rattle.base.specs.Current.{table_size};
ghost use Rattle.syntax.specs.Strings.{nothing_here};
ghost use Rattle.symbols.specs.Bounds.{far_enough};
ghost use Rattle.symbols.specs.Elements.{with_element};
ghost use Rattle.encoding.specs.Meaning.{cell_meaning};
ghost use Rattle.numeric_parser.specs.Operands.{ReaderReady};
ghost use Rattle.string_parser.specs.Elements.{one_more, ElementRead, PatternElementRead, OneRead, MoreRead, ended_row, RowsRead};

use cells::{filler, text_call};
use encoding::cell_kinds;
use encoding::cells::Cell;
use lexer::stands_at;
use literals::literal;
use numeric_parser::operands::{behind_word, marked, read_part};
use symbols::known::Known;
use symbols::tags::Role;
use symbols::{Cursor, Mentioned, put_element};

// what a row has: elements of a string expression, or of a pattern
// kept: a closure that reads an element would write to table and names, and a contract would have to say for any closure what it leaves in them
#[derive(Clone, Copy)]
pub enum Elements {
    OfString,
    OfPattern,
}

// writes a cell as the next element
// kept: numeric_parser's put does so for items: they differ in the rows they write to and the count they raise, so as methods of Cursor they are two
fn put(table: &mut [u8], c: Cursor, v: Cell) -> Cursor
    requires { (table_size ≤ length table.old) × (c.elements ≤ far_enough) }
    ensures { (result ≡ one_more c) × (table.new ≡ with_element table.old c.elements (cell_meaning v)) }
{
    put_element(table, c.elements, v);
    Cursor {
        elements: c.elements + 1,
        ..c
    }
}

// an element of a string expression, or of a pattern where its names have a role
fn element(
    text: &[u8],
    known: &Known,
    table: &mut [u8],
    mentioned: &mut Mentioned,
    c: Cursor,
    role: Option<Role>,
) -> Option<Cursor>
    requires reader_ready { ReaderReady text.now c }
    requires table_size_in_bounds { table_size ≤ length table.old }
    ensures { ElementRead text.now known.now table.old mentioned.old c role result
        table.new mentioned.new }
{
    if stands_at(text, c.at, b'"') {
        return Some(literal(text, table, c));
    }
    if let Some(open) = behind_word(text, c, b"STRING(") {
        let (cell, d) = text_call(text, known, mentioned, open)?;
        return Some(put(table, d, cell));
    }
    let (cell, d) = read_part(text, known, mentioned, c, cell_kinds::STRING, role)?;
    Some(put(table, d, cell))
}

// an element of a pattern
fn pattern_element(
    text: &[u8],
    known: &Known,
    table: &mut [u8],
    mentioned: &mut Mentioned,
    c: Cursor,
) -> Option<Cursor>
    requires reader_ready { ReaderReady text.now c }
    requires table_size_in_bounds { table_size ≤ length table.old }
    ensures { PatternElementRead text.now known.now table.old mentioned.old c result
        table.new mentioned.new }
{
    if let Some(open) = marked(text, c, b'(') {
        let (cell, d) = filler(text, known, mentioned, open)?;
        return Some(put(table, d, cell));
    }
    element(text, known, table, mentioned, c, Some(Role::Sought))
}

// an element of either
fn one(
    text: &[u8],
    known: &Known,
    table: &mut [u8],
    mentioned: &mut Mentioned,
    c: Cursor,
    elements: Elements,
) -> Option<Cursor>
    requires reader_ready { ReaderReady text.now c }
    requires table_size_in_bounds { table_size ≤ length table.old }
    ensures { OneRead text.now known.now table.old mentioned.old c elements result
        table.new mentioned.new }
{
    match elements {
        Elements::OfString => element(text, known, table, mentioned, c, None),
        Elements::OfPattern => pattern_element(text, known, table, mentioned, c),
    }
}

// more elements, each behind a comma
// kept: from comma to comma, which counts nothing; as an iterator it would be a struct of all six parameters, stopped by `?` all the same
// kept: more_numbers of statement_parser goes from comma to comma too; one loop for both would take a closure that writes, as above
fn more(
    text: &[u8],
    known: &Known,
    table: &mut [u8],
    mentioned: &mut Mentioned,
    c: Cursor,
    elements: Elements,
) -> Option<Cursor>
    requires reader_ready { ReaderReady text.now c }
    requires table_size_in_bounds { table_size ≤ length table.old }
    ensures { MoreRead text.now known.now table.old mentioned.old c elements result
        table.new mentioned.new }
{
    let mut d = c;
    while let Some(e) = marked(text, d, b',') {
        d = one(text, known, table, mentioned, e, elements)?;
    }
    Some(d)
}

// whether nothing stands at a place: the end, `/` or `]`
#[tactic(auto, using(crate::proofs::Quotes::nothing_at))]
fn nothing_here(text: &[u8], at: usize) -> bool
    ensures { result ≡ nothing_here (drop at text.now) }
{
    text.len() <= at || stands_at(text, at, b'/') || stands_at(text, at, b']')
}

// the cursor behind a row that started with this element: the longest row so far may be this one
fn row_end(from: usize, d: Cursor) -> Cursor
    requires { from ≤ d.elements }
    ensures { result ≡ ended_row from d }
{
    let longest = d.longest.max(d.elements - from);
    Cursor { longest, ..d }
}

// a pattern or a string expression: nothing, or elements parted by commas
pub fn row(
    text: &[u8],
    known: &Known,
    table: &mut [u8],
    mentioned: &mut Mentioned,
    c: Cursor,
    elements: Elements,
) -> Option<Cursor>
    requires reader_ready { ReaderReady text.now c }
    requires table_size_in_bounds { table_size ≤ length table.old }
    ensures { RowsRead text.now known.now table.old mentioned.old c elements result
        table.new mentioned.new }
{
    if nothing_here(text, c.at) {
        return Some(c);
    }
    let d = one(text, known, table, mentioned, c, elements)?;
    let e = more(text, known, table, mentioned, d, elements)?;
    Some(row_end(c.elements, e))
}
