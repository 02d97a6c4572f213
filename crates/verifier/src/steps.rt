// Steps judged by the kinds of their rows: what a kind asks of the flag, of the steps it leads to and of its two cells, then the elements
// and items of its range.
// Assumes nothing.
ghost use Rattle.std.specs.Prelude.{◌≡◌, ◌+◌, ◌≤◌, ◌<◌, length, IfSome, option_map};
ghost use Rattle.base.specs.Current.{table_size};
ghost use Rattle.encoding.specs.Meaning.{cell_meaning, row_meaning};
ghost use Rattle.verifier.specs.Asked.{row_asked, flag_meaning, steps_meaning, left_meaning, right_meaning, row_rule_asks};
ghost use Rattle.verifier.specs.Tests.{FewCounts, RangesShort, PlacesRoom, StretchesInside, flag_test, steps_test, left_test, right_test, stretches_of, start_test, most_more, stretches_test};
ghost use Rattle.verifier.specs.Tests.{row_test, is_pattern, last_kind, waiting_left, pattern_test, literals_end, cells_end, places_behind_step, steps_end, start};

use crate::kinds;
use base::ROW;
use encoding::cell_kinds::{
    CONSTANT, LAST_ELEMENT, LAST_FILLER, LAST_ITEM, LAST_PART, NOTHING, NUMBER, RANGE, STRING,
};
use encoding::cells::{Branch, Cell, Counts, Row};
use encoding::{RANGE_MORE, RANGE_STEP, STEP_ROW, step_kinds};

// the places among all elements, items and literal bytes where the next ones stand
// kept: that they are within their regions (PlacesRoom) is no ghost field: the definitions make Places too, and couldn't without a proof of it
#[derive(Clone, Copy)]
pub struct Places {
    pub elements: usize,
    pub items: usize,
    pub literals: usize,
}

// how many elements stand first, how many more behind them, and how many items
#[derive(Clone, Copy)]
pub struct Stretches {
    pub first: usize,
    pub more: usize,
    pub items: usize,
}

// what the flag is
#[derive(Clone, Copy)]
pub enum FlagRule {
    NoFlag,
    OfComparison,
    OfDirection,
}

// which steps the row leads to
#[derive(Clone, Copy)]
pub enum StepsRule {
    NoStep,
    OneStep,
    BothSteps,
}

// what the left cell is
#[derive(Clone, Copy)]
pub enum LeftRule {
    NoLeft,
    NumberLeft,
    StringLeft,
    PartLeft,
    OperandLeft,
}

// what the right cell is
#[derive(Clone, Copy)]
pub enum RightRule {
    NoRight,
    OperandRight,
    ItemsRight,
    ElementsRight,
    PatternRight,
    ReplacingRight,
}

// what a kind asks of a row
#[derive(Clone, Copy)]
pub struct RowRule {
    pub flag: FlagRule,
    pub steps: StepsRule,
    pub left: LeftRule,
    pub right: RightRule,
}

const ENDS: RowRule = RowRule {
    flag: FlagRule::NoFlag,
    steps: StepsRule::NoStep,
    left: LeftRule::NoLeft,
    right: RightRule::NoRight,
};

const LEADS: RowRule = RowRule {
    steps: StepsRule::OneStep,
    ..ENDS
};

const SETS_NUMBER: RowRule = RowRule {
    left: LeftRule::NumberLeft,
    right: RightRule::ItemsRight,
    ..ENDS
};

const SETS_STRING: RowRule = RowRule {
    left: LeftRule::PartLeft,
    right: RightRule::ElementsRight,
    ..ENDS
};

const WRITES: RowRule = RowRule {
    right: RightRule::ElementsRight,
    ..ENDS
};

const TESTS_STRING: RowRule = RowRule {
    steps: StepsRule::BothSteps,
    left: LeftRule::StringLeft,
    ..ENDS
};

const TESTS_PART: RowRule = RowRule {
    left: LeftRule::PartLeft,
    ..TESTS_STRING
};

const COMPARES: RowRule = RowRule {
    flag: FlagRule::OfComparison,
    left: LeftRule::OperandLeft,
    right: RightRule::OperandRight,
    ..TESTS_STRING
};

const SCANS: RowRule = RowRule {
    flag: FlagRule::OfDirection,
    right: RightRule::PatternRight,
    ..TESTS_PART
};

const REPLACES: RowRule = RowRule {
    right: RightRule::ReplacingRight,
    ..SCANS
};

// the last flags of a comparison and of a direction
// kept: numbers of flags and, in last_kind, of kinds, as encoding/cells says: each is a bound that a table's byte is compared with
const LAST_COMPARISON: u8 = 6;

const LAST_DIRECTION: u8 = 2;

// What a kind asks of a row, if there is such a kind.
fn rule_of(kind: u8) -> Option<RowRule>
    ensures { option_map row_rule_asks result ≡ row_asked kind }
{
    match kind {
        step_kinds::SET_NUMBER => Some(SETS_NUMBER),
        step_kinds::SET_STRING => Some(SETS_STRING),
        step_kinds::GOTO => Some(LEADS),
        step_kinds::FINISH => Some(ENDS),
        step_kinds::EXECUTE => Some(LEADS),
        step_kinds::RETURN => Some(ENDS),
        step_kinds::NULL => Some(TESTS_STRING),
        step_kinds::NUMERIC => Some(TESTS_PART),
        step_kinds::COMPARE => Some(COMPARES),
        step_kinds::SCAN => Some(SCANS),
        step_kinds::REPLACE => Some(REPLACES),
        step_kinds::READ => Some(TESTS_PART),
        step_kinds::WRITE => Some(WRITES),
        _ => None,
    }
}

// Whether the flag is one of the kind: a sign of comparison, a direction, or 0.
fn flags_hold(rule: FlagRule, flag: u8) -> bool
    ensures { result ≡ flag_test (flag_meaning rule) flag }
{
    match rule {
        FlagRule::NoFlag => flag == 0,
        FlagRule::OfComparison => (1 <= flag) & (flag <= LAST_COMPARISON),
        FlagRule::OfDirection => (1 <= flag) & (flag <= LAST_DIRECTION),
    }
}

// Whether the steps that the row leads to are steps; those that it doesn't lead to are 0.
fn branch_holds(rule: StepsRule, b: Branch, steps: usize) -> bool
    ensures { result ≡ steps_test steps (steps_meaning rule) b.success b.failure }
{
    match rule {
        StepsRule::NoStep => (b.success == 0) & (b.failure == 0),
        StepsRule::OneStep => (b.success < steps) & (b.failure == 0),
        StepsRule::BothSteps => (b.success < steps) & (b.failure < steps),
    }
}

// Whether the left cell is one of the kind: a number, a string, a part of one, an operand, or nothing.
fn left_holds(rule: LeftRule, left: Cell, n: Counts) -> bool
    ensures { result ≡ left_test n (left_meaning rule) (cell_meaning left) }
{
    match rule {
        LeftRule::NoLeft => kinds::cell_holds(left, NOTHING, NOTHING, n),
        LeftRule::NumberLeft => kinds::cell_holds(left, NUMBER, NUMBER, n),
        LeftRule::StringLeft => kinds::cell_holds(left, STRING, STRING, n),
        LeftRule::PartLeft => kinds::cell_holds(left, STRING, LAST_PART, n),
        LeftRule::OperandLeft => kinds::cell_holds(left, CONSTANT, LAST_ITEM, n),
    }
}

// Whether the right cell is one of the kind: an operand, a range, or nothing.
fn right_holds(rule: RightRule, right: Cell, n: Counts) -> bool
    ensures { result ≡ right_test n (right_meaning rule) (cell_meaning right) }
{
    match rule {
        RightRule::NoRight => kinds::cell_holds(right, NOTHING, NOTHING, n),
        RightRule::OperandRight => kinds::cell_holds(right, CONSTANT, LAST_ITEM, n),
        _ => kinds::cell_holds(right, RANGE, RANGE, n),
    }
}

// What the row's range holds.
// kept: decoder takes such numbers out of a range too: there one stretch at a time, from its place on; here what the rule says that there is
fn stretches_of(rule: RightRule, range: usize) -> Stretches
    ensures { (result ≡ stretches_of (right_meaning rule) range) × RangesShort result }
{
    match rule {
        RightRule::NoRight | RightRule::OperandRight => Stretches {
            first: 0,
            more: 0,
            items: 0,
        },
        RightRule::ItemsRight => Stretches {
            first: 0,
            more: range / RANGE_MORE,
            items: range / RANGE_STEP % RANGE_STEP,
        },
        _ => Stretches {
            first: range / RANGE_STEP % RANGE_STEP,
            more: range / RANGE_MORE,
            items: 0,
        },
    }
}

// Whether the row's range starts where the ones before it end.
fn start_holds(rule: RightRule, range: usize, p: Places) -> bool
    ensures { result ≡ start_test p (right_meaning rule) range }
{
    match rule {
        RightRule::NoRight | RightRule::OperandRight => true,
        RightRule::ItemsRight => range % RANGE_STEP == p.items,
        _ => range % RANGE_STEP == p.elements,
    }
}

// How many elements may stand behind the first: those of a replacement.
fn most_more(rule: RightRule) -> usize
    ensures { result ≡ most_more (right_meaning rule) }
{
    match rule {
        RightRule::ReplacingRight => ROW,
        _ => 0,
    }
}

// Whether the stretches are not too long, and end within the header's counts.
fn stretches_hold(rule: RightRule, s: Stretches, p: Places, n: Counts) -> bool
    requires { RangesShort s × PlacesRoom p }
    ensures { result ≡ stretches_test n p (right_meaning rule) s }
{
    (s.more <= most_more(rule))
        & (s.first <= ROW)
        & (p.elements + s.first + s.more <= n.elements)
        & (p.items + s.items <= n.items)
}

// Whether a row is as a rule asks for, as far as its own bytes say.
fn row_holds(rule: RowRule, r: Row, n: Counts) -> bool
    ensures { result ≡ row_test n (row_rule_asks rule) (row_meaning r) }
{
    flags_hold(rule.flag, r.flag)
        & branch_holds(rule.steps, r.branch, n.steps)
        & left_holds(rule.left, r.left, n)
        & right_holds(rule.right, r.right, n)
}

// Whether a row's first elements are those of a pattern.
fn has_pattern(rule: RightRule) -> bool
    ensures { result ≡ is_pattern (right_meaning rule) }
{
    matches!(rule, RightRule::PatternRight | RightRule::ReplacingRight)
}

// The last kind that the first elements of a row may have.
fn last_kind(rule: RightRule) -> u8
    ensures { result ≡ last_kind (right_meaning rule) }
{
    if has_pattern(rule) {
        return LAST_FILLER;
    }
    LAST_ELEMENT
}

// How many numbers are left of a row's items: one where there are items.
fn numbers_left(rule: RightRule) -> usize
    ensures { result ≡ waiting_left (right_meaning rule) }
{
    match rule {
        RightRule::ItemsRight => 1,
        _ => 0,
    }
}

// Whether the roles of a row's pattern are as they should be, if it has one: no string has the place of a filler left of it, and no filler that
// of the reference.
fn pattern_holds(t: &[u8], rule: RightRule, k: usize, count: usize, reference: usize) -> bool
    requires { (table_size ≤ length t.now) × (k + count ≤ 1024) }
    ensures { result ≡ pattern_test (right_meaning rule) t.now reference k count }
{
    if has_pattern(rule) {
        return kinds::roles_hold(t, k, count, reference);
    }
    true
}

// The place among the literals behind both stretches of elements, the kinds of the first up to high: none if an element breaks a rule.
fn literals_end(t: &[u8], high: u8, s: Stretches, p: Places, n: Counts) -> Option<usize>
    requires { (table_size ≤ length t.now) × StretchesInside s p }
    ensures is { result ≡ literals_end n t.now p high s }
    ensures inside { IfSome result (λ end. end ≤ 65536) }
{
    let middle = kinds::elements_end(t, p.elements, s.first, high, p.literals, n)?;
    let from = p.elements + s.first;
    kinds::elements_end(t, from, s.more, LAST_ELEMENT, middle, n)
}

// The places behind the elements and items of a row: one number is left of the items, if there are any. None if a rule is broken.
fn cells_end(
    t: &[u8],
    rule: RightRule,
    reference: usize,
    s: Stretches,
    p: Places,
    n: Counts,
) -> Option<Places>
    requires { (table_size ≤ length t.now) × StretchesInside s p }
    ensures is { result ≡ cells_end n t.now p (right_meaning rule) reference s }
    ensures room { IfSome result PlacesRoom }
{
    let known = kinds::items_end(t, p.items, s.items, n)?;
    let roles = pattern_holds(t, rule, p.elements, s.first, reference);
    let holds = (known == numbers_left(rule)) & roles;
    if !holds {
        return None;
    }
    let literals = literals_end(t, last_kind(rule), s, p, n)?;
    Some(Places {
        elements: p.elements + s.first + s.more,
        items: p.items + s.items,
        literals,
    })
}

// The places behind step k: none if the step breaks a rule.
fn step_end(t: &[u8], k: usize, p: Places, n: Counts) -> Option<Places>
    requires { (table_size ≤ length t.now) × (k < 256) × PlacesRoom p × FewCounts n }
    ensures is { result ≡ places_behind_step n t.now k p }
    ensures room { IfSome result PlacesRoom }
{
    let r = decoder::row_at(t, encoding::STEPS_AT + STEP_ROW * k);
    let rule = rule_of(r.kind)?;
    let range = r.right.value;
    let s = stretches_of(rule.right, range);
    if row_holds(rule, r, n)
        & start_holds(rule.right, range, p)
        & stretches_hold(rule.right, s, p, n)
    {
        let reference = r.left.place as usize;
        return cells_end(t, rule.right, reference, s, p, n);
    }
    None
}

// The places behind all steps: none if one breaks a rule.
pub fn steps_end(t: &[u8], n: Counts) -> Option<Places>
    requires { (table_size ≤ length t.now) × FewCounts n }
    ensures { result ≡ steps_end n t.now 0 start n.steps }
{
    let mut p = Places {
        elements: 0,
        items: 0,
        literals: 0,
    };
    for k in 0..n.steps {
        p = step_end(t, k, p, n)?;
    }
    Some(p)
}
