// The forms of the kinds of statements, each read from behind its keyword.
// Assumes nothing.
ghost use Rattle.std.specs.Prelude.{◌≡◌, ◌≤◌, length};
ghost use Rattle.base.specs.Current.{table_size};
ghost use Rattle.statement_parser.specs.Ends.{ended_at, ended_by};
ghost use Rattle.statement_parser.specs.Rows.{begun_as};
ghost use Rattle.statement_parser.specs.Steps.{TargetFormRead, IfRead, InputRead, OutputRead, StringSetRead, ScanRead};
ghost use Rattle.statement_parser.specs.Steps.{AssignedRead, NumberSetRead, SetsNumber, ReplacementRead, ProgramRead};
ghost use Rattle.statement_parser.specs.Steps.{NumbersRead, MoreNumbersRead, BehindUnit};
ghost use Rattle.numeric_parser.specs.Operands.{ReaderReady, InText};
ghost use Rattle.card_reader.specs.Packs.{longest_text};

use crate::stages::{branch_or_next, range_cell, replaced, stretch};
use branch_parser::tests::read_test;
use branch_parser::{BLANK, Target, read_branch, read_target};
use encoding::cells::{Branch, Cell, Direction, Row};
use encoding::{cell_kinds, step_kinds};
use lexer::names::{key_of, name_length};
use lexer::stands_at;
use numeric_parser::expression;
use numeric_parser::operands::{behind_word, marked, read_name, read_number, read_part};
use string_parser::Elements;
use symbols::known::Known;
use symbols::tags::{Role, Tag};
use symbols::{Cursor, Mentioned};

// the end of a statement, with its row if it is a step: nothing may stand behind it
fn ended(text: &[u8], row: Option<Row>, d: Cursor) -> Option<(Option<Row>, Cursor)>
    ensures { result ≡ ended_at text.now row d }
{
    (text.len() <= d.at).then_some((row, d))
}

// a keyword alone
pub fn plain_form(text: &[u8], c: Cursor, kind: u8) -> Option<(Option<Row>, Cursor)>
    ensures { result ≡ ended_by text.now (begun_as kind 0 c) }
{
    ended(text, Some(Row { kind, ..BLANK }), c)
}

// GOTO, ROUTINE and EXECUTE: a step to go to
pub fn target_form(
    text: &[u8],
    known: &Known,
    mentioned: &mut Mentioned,
    c: Cursor,
    target: Target,
) -> Option<(Option<Row>, Cursor)>
    requires { ReaderReady text.now c }
    ensures { TargetFormRead text.now known.now mentioned.old c target result mentioned.new }
{
    let (success, d) = read_target(text, known, mentioned, c, target)?;
    let row = Row {
        kind: target.kind(),
        branch: Branch {
            success,
            failure: 0,
        },
        ..BLANK
    };
    ended(text, Some(row), d)
}

// IF: the test's row has its own kind
pub fn if_form(
    text: &[u8],
    known: &Known,
    mentioned: &mut Mentioned,
    c: Cursor,
) -> Option<(Option<Row>, Cursor)>
    requires { ReaderReady text.now c }
    ensures { IfRead text.now known.now mentioned.old c result mentioned.new }
{
    let open = marked(text, c, b'(')?;
    let (test, d) = read_test(text, known, mentioned, open)?;
    let close = marked(text, d, b')')?;
    let (branch, e) = read_branch(text, known, mentioned, close)?;
    let row = Row { branch, ..test };
    ended(text, Some(row), e)
}

// the cursor behind a unit, if it stands here
fn behind_unit(text: &[u8], c: Cursor, unit: &[u8; 4]) -> Cursor
    requires { InText text.now c }
    ensures { BehindUnit text.now unit.now c result }
{
    behind_word(text, c, unit).unwrap_or(c)
}

// READ
pub fn input_form(
    text: &[u8],
    known: &Known,
    mentioned: &mut Mentioned,
    c: Cursor,
) -> Option<(Option<Row>, Cursor)>
    requires { ReaderReady text.now c }
    ensures { InputRead text.now known.now mentioned.old c result mentioned.new }
{
    let d = behind_unit(text, c, b"(60)");
    let (left, e) = read_part(text, known, mentioned, d, cell_kinds::STRING, None)?;
    let (branch, f) = branch_or_next(text, known, mentioned, e)?;
    let row = Row {
        kind: step_kinds::READ,
        left,
        branch,
        ..BLANK
    };
    ended(text, Some(row), f)
}

// WRITE and PRINT
pub fn output_form(
    text: &[u8],
    known: &Known,
    table: &mut [u8],
    mentioned: &mut Mentioned,
    c: Cursor,
) -> Option<(Option<Row>, Cursor)>
    requires reader_ready { ReaderReady text.now c }
    requires table_size_in_bounds { table_size ≤ length table.old }
    ensures { OutputRead text.now known.now table.old mentioned.old c result table.new mentioned.new }
{
    let d = behind_unit(text, c, b"(61)");
    let (right, e) = stretch(text, known, table, mentioned, d, Elements::OfString)?;
    let kind = step_kinds::WRITE;
    ended(
        text,
        Some(Row {
            kind,
            right,
            ..BLANK
        }),
        e,
    )
}

// a string or a part of it is set
fn string_form(
    text: &[u8],
    known: &Known,
    table: &mut [u8],
    mentioned: &mut Mentioned,
    c: Cursor,
) -> Option<(Option<Row>, Cursor)>
    requires reader_ready { ReaderReady text.now c }
    requires table_size_in_bounds { table_size ≤ length table.old }
    ensures { StringSetRead text.now known.now table.old mentioned.old c result
        table.new mentioned.new }
{
    let (left, d) = read_part(text, known, mentioned, c, cell_kinds::STRING, None)?;
    let sets = marked(text, d, b'=')?;
    let (right, e) = stretch(text, known, table, mentioned, sets, Elements::OfString)?;
    let row = Row {
        kind: step_kinds::SET_STRING,
        left,
        right,
        ..BLANK
    };
    ended(text, Some(row), e)
}

// SCAN, or BACKSCAN
pub fn scan_form(
    text: &[u8],
    known: &Known,
    table: &mut [u8],
    mentioned: &mut Mentioned,
    c: Cursor,
    direction: Direction,
) -> Option<(Option<Row>, Cursor)>
    requires reader_ready { ReaderReady text.now c }
    requires table_size_in_bounds { table_size ≤ length table.old }
    ensures { ScanRead text.now known.now table.old mentioned.old c direction result
        table.new mentioned.new }
{
    let flag = direction.number();
    let reference = Some(Role::Reference);
    let (left, d) = read_part(text, known, mentioned, c, cell_kinds::STRING, reference)?;
    let open = marked(text, d, b'[')?;
    let (right, e) = stretch(text, known, table, mentioned, open, Elements::OfPattern)?;
    let close = marked(text, e, b']')?;
    let scan = Row {
        kind: step_kinds::SCAN,
        flag,
        left,
        right,
        ..BLANK
    };
    let from = c.elements;
    let (row, f) = replaced(text, known, table, mentioned, scan, close, from)?;
    let (branch, g) = branch_or_next(text, known, mentioned, f)?;
    let step = Row { branch, ..row };
    ended(text, Some(step), g)
}

// the expression that a number is set to
fn assigned(
    text: &[u8],
    known: &Known,
    table: &mut [u8],
    mentioned: &mut Mentioned,
    c: Cursor,
    place: u8,
) -> Option<(Option<Row>, Cursor)>
    requires reader_ready { ReaderReady text.now c }
    requires table_size_in_bounds { table_size ≤ length table.old }
    ensures { AssignedRead text.now known.now table.old mentioned.old c place result
        table.new mentioned.new }
{
    let d = expression(text, known, table, mentioned, c, 0)?;
    let right = range_cell(c.items, d.items - c.items, 0);
    let left = Cell {
        kind: cell_kinds::NUMBER,
        place,
        value: 0,
    };
    let row = Row {
        kind: step_kinds::SET_NUMBER,
        left,
        right,
        ..BLANK
    };
    ended(text, Some(row), d)
}

// a number is set
fn number_form(
    text: &[u8],
    known: &Known,
    table: &mut [u8],
    mentioned: &mut Mentioned,
    c: Cursor,
) -> Option<(Option<Row>, Cursor)>
    requires reader_ready { ReaderReady text.now c }
    requires table_size_in_bounds { table_size ≤ length table.old }
    ensures { NumberSetRead text.now known.now table.old mentioned.old c result
        table.new mentioned.new }
{
    let (place, d) = read_number(text, known, mentioned, c)?;
    let e = marked(text, d, b'=')?;
    assigned(text, known, table, mentioned, e, place)
}

// whether a name known as a number stands before `=`
fn sets_number(text: &[u8], known: &Known, at: usize) -> bool
    requires { (at ≤ length text.now) × (length text.now ≤ longest_text) }
    ensures { SetsNumber text.now known.now at result }
{
    // kept: where no name stands the empty one is asked for, as document 01's sets_number does; no clause of Known says that no number has it
    let n = name_length(text, at).unwrap_or(0);
    known.has_number(key_of(text, at, n)) && stands_at(text, at + n, b'=')
}

// a replacement
pub fn replacement_form(
    text: &[u8],
    known: &Known,
    table: &mut [u8],
    mentioned: &mut Mentioned,
    c: Cursor,
) -> Option<(Option<Row>, Cursor)>
    requires reader_ready { ReaderReady text.now c }
    requires table_size_in_bounds { table_size ≤ length table.old }
    ensures { ReplacementRead text.now known.now table.old mentioned.old c result
        table.new mentioned.new }
{
    if sets_number(text, known, c.at) {
        return number_form(text, known, table, mentioned, c);
    }
    string_form(text, known, table, mentioned, c)
}

// PROGRAM is no step
pub fn program_form(
    text: &[u8],
    mentioned: &mut Mentioned,
    c: Cursor,
) -> Option<(Option<Row>, Cursor)>
    requires { ReaderReady text.now c }
    ensures { ProgramRead text.now mentioned.old c result mentioned.new }
{
    let (_, d) = read_name(text, mentioned, c, Tag::ProgramDeclared)?;
    ended(text, None, d)
}

// further names of a NUMBER statement
// kept: from comma to comma, which counts nothing; as an iterator it would be a struct of text, names and cursor, stopped by `?` all the same
fn more_numbers(text: &[u8], mentioned: &mut Mentioned, c: Cursor) -> Option<(Option<Row>, Cursor)>
    requires { ReaderReady text.now c }
    ensures { MoreNumbersRead text.now mentioned.old c result mentioned.new }
{
    let mut d = c;
    while let Some(e) = marked(text, d, b',') {
        let (_, f) = read_name(text, mentioned, e, Tag::NumberDeclared)?;
        d = f;
    }
    ended(text, None, d)
}

// NUMBER is no step
pub fn numbers_form(
    text: &[u8],
    mentioned: &mut Mentioned,
    c: Cursor,
) -> Option<(Option<Row>, Cursor)>
    requires { ReaderReady text.now c }
    ensures { NumbersRead text.now mentioned.old c result mentioned.new }
{
    let (_, d) = read_name(text, mentioned, c, Tag::NumberDeclared)?;
    more_numbers(text, mentioned, d)
}
