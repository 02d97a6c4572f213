// Every form of a statement, read into a row of the table; a statement with its label.
// Assumes nothing.
// kept: text, names, table and cursor are passed one by one, with ReaderReady as a clause, as numeric_parser/operands says
#![tactic(auto)]

pub mod stages;
pub mod steps;

ghost use Rattle.std.specs.Prelude.{◌≡◌, ◌≤◌, length};
ghost use Rattle.base.specs.Current.{table_size};
ghost use Rattle.statement_parser.specs.Clauses.{Starts, StatementFormRead, StatementRead};
ghost use Rattle.statement_parser.specs.Labels.{name_shown};

use branch_parser::Target;
use card_reader::PackedStatement;
use classes::{is_letter, is_letter_or_digit};
use encoding::cells::{Direction, Row};
use encoding::step_kinds;
use lexer::keywords::{Kind, leading};
use numeric_parser::operands::skip;
use steps::{
    if_form, input_form, numbers_form, output_form, plain_form, program_form, replacement_form,
    scan_form, target_form,
};
use symbols::known::Known;
use symbols::tags::Tag;
use symbols::{Cursor, Mentioned};

// the statement that a packed text is: its row, if it is a step
// kept: deck_reader's judge_packed has looked the keyword up before, for 4; handed on, it would ask a clause of both passes: that it is the text's
// kept: one match with an arm for each kind: the forms take different parts, all of which each closure of a table would have to take
pub fn read_form(
    text: &[u8],
    known: &Known,
    table: &mut [u8],
    mentioned: &mut Mentioned,
    c: Cursor,
) -> Option<(Option<Row>, Cursor)>
    requires starts { Starts text.now c }
    requires table_size_in_bounds { table_size ≤ length table.old }
    ensures { StatementFormRead text.now known.now table.old mentioned.old c result
        table.new mentioned.new }
{
    let lead = leading(text);
    let d = skip(c, lead.size);
    let kind = lead.kind;
    match kind {
        Kind::Replacement => replacement_form(text, known, table, mentioned, d),
        Kind::Number => numbers_form(text, mentioned, d),
        Kind::Program => program_form(text, mentioned, d),
        Kind::End | Kind::Exit => plain_form(text, d, step_kinds::FINISH),
        Kind::Goto => target_form(text, known, mentioned, d, Target::Label),
        Kind::If => if_form(text, known, mentioned, d),
        Kind::Scan => scan_form(text, known, table, mentioned, d, Direction::Forward),
        Kind::Backscan => scan_form(text, known, table, mentioned, d, Direction::Backward),
        Kind::Read => input_form(text, known, mentioned, d),
        Kind::Write | Kind::Print => output_form(text, known, table, mentioned, d),
        Kind::Routine => target_form(text, known, mentioned, d, Target::Exit),
        Kind::Execute => target_form(text, known, mentioned, d, Target::Entry),
        Kind::EndRoutine | Kind::Return => plain_form(text, d, step_kinds::RETURN),
        Kind::Unknown => None,
    }
}

// whether the bytes that a key shows are a letter, and letters and digits behind it
// kept: a loop over the number: of its bytes (to_le_bytes) the zeros behind the name would have to be cut off first
fn is_name(key: u64) -> bool
    ensures { result ≡ name_shown key }
{
    if !is_letter((key % 256) as u8) {
        return false;
    }
    let mut rest = key / 256;
    while rest != 0 {
        if !is_letter_or_digit((rest % 256) as u8) {
            return false;
        }
        rest /= 256;
    }
    true
}

// the statement with its label; text is its packed text
pub fn read_statement(
    text: &[u8],
    packed: PackedStatement,
    known: &Known,
    table: &mut [u8],
    mentioned: &mut Mentioned,
    c: Cursor,
) -> Option<(Option<Row>, Cursor)>
    requires starts { Starts text.now c }
    requires names_value { c.names ≡ 0 }
    requires table_size_in_bounds { table_size ≤ length table.old }
    ensures { StatementRead packed.label packed.whole text.now known.now table.old mentioned.old c result
        table.new mentioned.new }
{
    if !packed.whole {
        return None;
    }
    if packed.label == 0 {
        return read_form(text, known, table, mentioned, c);
    }
    if !is_name(packed.label) {
        return None;
    }
    let d = mentioned.note(c, packed.label, Tag::LabelDeclared);
    read_form(text, known, table, mentioned, d)
}
