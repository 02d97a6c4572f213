// The tests of IF: NULL, NUMERIC, or two operands and a sign.
// Assumes nothing.
ghost use Rattle.std.specs.Prelude.{Some, ◌≡◌};
ghost use Rattle.branch_parser.specs.Tests.{ComparisonAt, IfOperandRead, tested_by, ComparedRead, ComparingRead, TestRead};
ghost use Rattle.numeric_parser.specs.Operands.{ReaderReady, InText};

use crate::BLANK;
use encoding::cells::{Cell, Row};
use encoding::{cell_kinds, step_kinds};
use lexer::{begins_at, constant_at};
use numbers::Comparison;
use numeric_parser::operands::{
    behind_word, marked, read_called, read_part, read_string, signed_constant, skip,
};
use symbols::known::Known;
use symbols::{Cursor, Mentioned};

// the sign of a comparison: which one, and how many bytes it has
#[derive(Clone, Copy)]
struct Sign {
    which: Comparison,
    size: usize,
}

// the signs, the two-byte ones first
static SIGNS: [(&[u8], Comparison); 6] = [
    (b"<>", Comparison::Unequal),
    (b"<=", Comparison::AtMost),
    (b">=", Comparison::AtLeast),
    (b"=", Comparison::Equal),
    (b"<", Comparison::Less),
    (b">", Comparison::Greater),
];

// the sign at a place, if one stands there
fn comparison(text: &[u8], at: usize) -> Option<Sign>
    ensures { ComparisonAt text.now at result }
{
    let (word, which) = SIGNS.iter().find(|(word, _)| begins_at(text, at, word))?;
    Some(Sign {
        which: *which,
        size: word.len(),
    })
}

// a signed constant, a number, LENGTH or NUMBER
fn if_operand(
    text: &[u8],
    known: &Known,
    mentioned: &mut Mentioned,
    c: Cursor,
) -> Option<(Cell, Cursor)>
    requires { ReaderReady text.now c }
    ensures { IfOperandRead text.now known.now mentioned.old c result mentioned.new }
{
    if constant_at(text, c.at) {
        return signed_constant(text, c, cell_kinds::CONSTANT, 0);
    }
    read_called(text, known, mentioned, c)
}

// a sign and the operand behind it
fn compared(
    text: &[u8],
    known: &Known,
    mentioned: &mut Mentioned,
    c: Cursor,
    left: Cell,
) -> Option<(Row, Cursor)>
    requires { ReaderReady text.now c }
    ensures { ComparedRead text.now known.now mentioned.old c left result mentioned.new }
{
    let sign = comparison(text, c.at)?;
    let (right, d) = if_operand(text, known, mentioned, skip(c, sign.size))?;
    let row = Row {
        kind: step_kinds::COMPARE,
        flag: sign.which.number(),
        left,
        right,
        ..BLANK
    };
    Some((row, d))
}

// two operands and a sign
fn comparing(
    text: &[u8],
    known: &Known,
    mentioned: &mut Mentioned,
    c: Cursor,
) -> Option<(Row, Cursor)>
    requires { ReaderReady text.now c }
    ensures { ComparingRead text.now known.now mentioned.old c result mentioned.new }
{
    let (left, d) = if_operand(text, known, mentioned, c)?;
    compared(text, known, mentioned, d, left)
}

// a test of one cell, if `)` stands behind it
fn tested(text: &[u8], kind: u8, left: Cell, c: Cursor) -> Option<(Row, Cursor)>
    requires { InText text.now c }
    ensures { result ≡ tested_by text.now kind (Some (left, c)) }
{
    let d = marked(text, c, b')')?;
    Some((
        Row {
            kind,
            left,
            ..BLANK
        },
        d,
    ))
}

// the test of an IF, as a row with no steps yet
pub fn read_test(
    text: &[u8],
    known: &Known,
    mentioned: &mut Mentioned,
    c: Cursor,
) -> Option<(Row, Cursor)>
    requires { ReaderReady text.now c }
    ensures { TestRead text.now known.now mentioned.old c result mentioned.new }
{
    if let Some(open) = behind_word(text, c, b"NULL(") {
        let (place, d) = read_string(text, known, mentioned, open, None)?;
        let cell = Cell {
            kind: cell_kinds::STRING,
            place,
            value: 0,
        };
        return tested(text, step_kinds::NULL, cell, d);
    }
    if let Some(open) = behind_word(text, c, b"NUMERIC(") {
        let (cell, d) = read_part(text, known, mentioned, open, cell_kinds::STRING, None)?;
        return tested(text, step_kinds::NUMERIC, cell, d);
    }
    comparing(text, known, mentioned, c)
}
