// STRING calls and fillers, each read as a cell of the table.
// Assumes nothing.
ghost use Rattle.numeric_parser.specs.Operands.{ReaderReady};
ghost use Rattle.string_parser.specs.Cells.{NumberEnds, NumberFollows, ConstantCalled, NumberCalled, TextCalled, FillerRead};

use encoding::cell_kinds::{FIXED, FREE, TEXT, TEXT_BY};
use encoding::cells::Cell;
use lexer::constant_at;
use numeric_parser::operands::{
    closed, marked, read_bound, read_number, read_string, signed_constant,
};
use symbols::known::Known;
use symbols::tags::Role;
use symbols::{BIAS, Cursor, Mentioned};

// the m of STRING with its `)`, in a cell of a kind and a value
fn number_end(
    text: &[u8],
    known: &Known,
    mentioned: &mut Mentioned,
    c: Cursor,
    kind: u8,
    value: usize,
) -> Option<(Cell, Cursor)>
    requires { ReaderReady text.now c }
    ensures { NumberEnds text.now known.now mentioned.old c kind value result mentioned.new }
{
    let (place, d) = read_number(text, known, mentioned, c)?;
    closed(text, Cell { kind, place, value }, d)
}

// the m of STRING behind a comma
fn number_behind(
    text: &[u8],
    known: &Known,
    mentioned: &mut Mentioned,
    c: Cursor,
    kind: u8,
    value: usize,
) -> Option<(Cell, Cursor)>
    requires { ReaderReady text.now c }
    ensures { NumberFollows text.now known.now mentioned.old c kind value result mentioned.new }
{
    let d = marked(text, c, b',')?;
    number_end(text, known, mentioned, d, kind, value)
}

// STRING with a constant n
fn constant_call(
    text: &[u8],
    known: &Known,
    mentioned: &mut Mentioned,
    c: Cursor,
) -> Option<(Cell, Cursor)>
    requires { ReaderReady text.now c }
    ensures { ConstantCalled text.now known.now mentioned.old c result mentioned.new }
{
    let (n, d) = signed_constant(text, c, TEXT, 0)?;
    number_behind(text, known, mentioned, d, TEXT, n.value)
}

// STRING with a number n, or with m alone: its n is 0
fn number_call(
    text: &[u8],
    known: &Known,
    mentioned: &mut Mentioned,
    c: Cursor,
) -> Option<(Cell, Cursor)>
    requires { ReaderReady text.now c }
    ensures { NumberCalled text.now known.now mentioned.old c result mentioned.new }
{
    let (place, d) = read_number(text, known, mentioned, c)?;
    if let Some(e) = marked(text, d, b',') {
        let value = place as usize;
        return number_end(text, known, mentioned, e, TEXT_BY, value);
    }
    let cell = Cell {
        kind: TEXT,
        place,
        value: BIAS,
    };
    closed(text, cell, d)
}

// a STRING call behind its `(`
#[tactic(auto, using(crate::specs::CellLaws::text_constant, crate::specs::CellLaws::text_number))]
pub fn text_call(
    text: &[u8],
    known: &Known,
    mentioned: &mut Mentioned,
    c: Cursor,
) -> Option<(Cell, Cursor)>
    requires { ReaderReady text.now c }
    ensures { TextCalled text.now known.now mentioned.old c result mentioned.new }
{
    if constant_at(text, c.at) {
        return constant_call(text, known, mentioned, c);
    }
    number_call(text, known, mentioned, c)
}

// a filler behind its `(`
pub fn filler(
    text: &[u8],
    known: &Known,
    mentioned: &mut Mentioned,
    c: Cursor,
) -> Option<(Cell, Cursor)>
    requires { ReaderReady text.now c }
    ensures { FillerRead text.now known.now mentioned.old c result mentioned.new }
{
    let (place, d) = read_string(text, known, mentioned, c, Some(Role::Filler))?;
    if let Some(bound) = marked(text, d, b'$') {
        let (cell, e) = read_bound(text, known, mentioned, bound, FIXED, place)?;
        return closed(text, cell, e);
    }
    let cell = Cell {
        kind: FREE,
        place,
        value: 0,
    };
    closed(text, cell, d)
}
