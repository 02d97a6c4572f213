// The parts of forms that several forms have, and the replacement of a SCAN.
// Assumes nothing.
ghost use Rattle.std.specs.Prelude.{Some, ◌≡◌, ◌≤◌, ◌<◌, length};
ghost use Rattle.base.specs.Current.{table_size};
ghost use Rattle.statement_parser.specs.Rows.{range_in};
ghost use Rattle.statement_parser.specs.Stages.{BranchIfAnyRead, StretchRead, ReplacedStage};
ghost use Rattle.symbols.specs.Bounds.{far_enough};
ghost use Rattle.numeric_parser.specs.Operands.{ReaderReady};

use branch_parser::read_branch;
use encoding::cells::{Branch, Cell, Row};
use encoding::{cell_kinds, step_kinds};
use lexer::stands_at;
use numeric_parser::operands::{marked, range_value};
use string_parser::Elements;
use symbols::known::Known;
use symbols::{Cursor, Mentioned};

// a stretch of elements or items from a place on, with more elements behind it
pub fn range_cell(from: usize, count: usize, more: usize) -> Cell
    requires { (from ≤ far_enough) × ((count ≤ far_enough) × (more < 65_536)) }
    ensures { result ≡ range_in from count more }
{
    Cell {
        kind: cell_kinds::RANGE,
        place: 0,
        value: range_value(from, count, more),
    }
}

// a branch field, if there is one; else the next step either way
pub fn branch_or_next(
    text: &[u8],
    known: &Known,
    mentioned: &mut Mentioned,
    c: Cursor,
) -> Option<(Branch, Cursor)>
    requires { ReaderReady text.now c }
    ensures { BranchIfAnyRead text.now known.now mentioned.old c result mentioned.new }
{
    if stands_at(text, c.at, b'/') {
        return read_branch(text, known, mentioned, c);
    }
    let branch = Branch {
        success: known.next,
        failure: known.next,
    };
    Some((branch, c))
}

// a pattern or a string expression, as the cell of the stretch of its elements
pub fn stretch(
    text: &[u8],
    known: &Known,
    table: &mut [u8],
    mentioned: &mut Mentioned,
    c: Cursor,
    elements: Elements,
) -> Option<(Cell, Cursor)>
    requires reader_ready { ReaderReady text.now c }
    requires table_size_in_bounds { table_size ≤ length table.old }
    ensures { StretchRead text.now known.now elements table.old mentioned.old c result
        table.new mentioned.new }
{
    let d = string_parser::row(text, known, table, mentioned, c, elements)?;
    let cell = range_cell(c.elements, d.elements - c.elements, 0);
    Some((cell, d))
}

// the replacement of a SCAN, if it has `=`: behind the elements of its pattern, which stand from a place on; its row has a kind of its own
pub fn replaced(
    text: &[u8],
    known: &Known,
    table: &mut [u8],
    mentioned: &mut Mentioned,
    row: Row,
    c: Cursor,
    from: usize,
) -> Option<(Row, Cursor)>
    requires following { ReaderReady text.now c × (from ≤ c.elements) }
    requires table_size_in_bounds { table_size ≤ length table.old }
    ensures { ReplacedStage text.now known.now table.old mentioned.old from (Some (row, c)) result
        table.new mentioned.new }
{
    let Some(behind) = marked(text, c, b'=') else {
        return Some((row, c));
    };
    let d = string_parser::row(text, known, table, mentioned, behind, Elements::OfString)?;
    let right = range_cell(from, c.elements - from, d.elements - c.elements);
    let kind = step_kinds::REPLACE;
    Some((Row { kind, right, ..row }, d))
}
