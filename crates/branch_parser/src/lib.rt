// Names that lead to steps, branch fields and the tests of IF, each read into what the row of a statement has of them.
// Assumes nothing.
// kept: text, names and cursor are passed one by one, with ReaderReady (of one in tests.rt InText) as a clause, as numeric_parser/operands says
#![tactic(auto)]

pub mod places;
pub mod tests;

ghost use Rattle.std.specs.Prelude.{◌≡◌};
ghost use Rattle.branch_parser.specs.Branches.{target_tag, target_kind, TargetRead, FailureRead, TargetsRead, BranchRead};
ghost use Rattle.numeric_parser.specs.Operands.{ReaderReady};

use encoding::cells::{Branch, Cell, Row};
use encoding::{cell_kinds, step_kinds};
use numeric_parser::operands::{marked, read_name};
use places::target_step;
use symbols::known::Known;
use symbols::tags::Tag;
use symbols::{Cursor, Mentioned};

// a row of which nothing is known yet
// kept: constants, no derived Default: tried, and the proof of a row (that of compared) must carry the equation of the call, where a constant's
// fields compute; and which kind the zero of a cell is stands here
pub const BLANK: Row = Row {
    kind: 0,
    flag: 0,
    branch: NOWHERE,
    left: NOTHING,
    right: NOTHING,
};

// no steps
const NOWHERE: Branch = Branch {
    success: 0,
    failure: 0,
};

// a cell that has nothing
const NOTHING: Cell = Cell {
    kind: cell_kinds::NOTHING,
    place: 0,
    value: 0,
};

// a name that leads to a step: a label, a routine executed, which leads behind its ROUTINE, and one declared, which leads behind its ENDROUTINE
#[derive(Clone, Copy)]
pub enum Target {
    Label,
    Entry,
    Exit,
}

impl Target {
    // what the name is mentioned as
    pub fn tag(self) -> Tag
        ensures { result ≡ target_tag self }
    {
        match self {
            Target::Label => Tag::LabelUsed,
            Target::Entry => Tag::RoutineUsed,
            Target::Exit => Tag::RoutineDeclared,
        }
    }

    // the kind of the row of a step that goes there
    pub fn kind(self) -> u8
        ensures { result ≡ target_kind self }
    {
        match self {
            Target::Label | Target::Exit => step_kinds::GOTO,
            Target::Entry => step_kinds::EXECUTE,
        }
    }
}

// a name that leads to a step
pub fn read_target(
    text: &[u8],
    known: &Known,
    mentioned: &mut Mentioned,
    c: Cursor,
    target: Target,
) -> Option<(usize, Cursor)>
    requires { ReaderReady text.now c }
    ensures { TargetRead text.now known.now mentioned.old c target result mentioned.new }
{
    let (key, d) = read_name(text, mentioned, c, target.tag())?;
    Some((target_step(known, key, target), d))
}

// the label on failure, beside the step on success
fn read_failure(
    text: &[u8],
    known: &Known,
    mentioned: &mut Mentioned,
    c: Cursor,
    success: usize,
) -> Option<(Branch, Cursor)>
    requires { ReaderReady text.now c }
    ensures { FailureRead text.now known.now mentioned.old c success result mentioned.new }
{
    let (failure, d) = read_target(text, known, mentioned, c, Target::Label)?;
    Some((Branch { success, failure }, d))
}

// a branch field behind its `/`: one left out is the next step
fn read_targets(
    text: &[u8],
    known: &Known,
    mentioned: &mut Mentioned,
    c: Cursor,
) -> Option<(Branch, Cursor)>
    requires { ReaderReady text.now c }
    ensures { TargetsRead text.now known.now mentioned.old c result mentioned.new }
{
    let next = known.next;
    if let Some(comma) = marked(text, c, b',') {
        return read_failure(text, known, mentioned, comma, next);
    }
    let (success, d) = read_target(text, known, mentioned, c, Target::Label)?;
    if let Some(comma) = marked(text, d, b',') {
        return read_failure(text, known, mentioned, comma, success);
    }
    let failure = next;
    Some((Branch { success, failure }, d))
}

// a branch field
pub fn read_branch(
    text: &[u8],
    known: &Known,
    mentioned: &mut Mentioned,
    c: Cursor,
) -> Option<(Branch, Cursor)>
    requires { ReaderReady text.now c }
    ensures { BranchRead text.now known.now mentioned.old c result mentioned.new }
{
    let d = marked(text, c, b'/')?;
    read_targets(text, known, mentioned, d)
}
