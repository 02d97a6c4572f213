// Cells judged by their kinds: what a kind asks of the place and of the value, and the cells of elements and of items one behind the other.
// Assumes nothing.
ghost use Rattle.std.specs.Prelude.{◌≡◌, ◌+◌, ◌≤◌, ◌<◌, ◌^◌, length, replicate, false, IfSome, option_map};
ghost use Rattle.base.specs.Current.{table_size};
ghost use Rattle.encoding.specs.Meaning.{cell_meaning};
ghost use Rattle.verifier.specs.Asked.{cell_asked, place_meaning, value_meaning, cell_rule_asks};
ghost use Rattle.verifier.specs.CellTests.{place_bound, value_low, value_bound, fit_test, asked_test, cell_test, own_length};
ghost use Rattle.verifier.specs.Elements.{literal_test, element_end, elements_end};
ghost use Rattle.verifier.specs.Items.{item_used, item_end, items_end};
ghost use Rattle.verifier.specs.Roles.{role_test, roles_test};

use base::LITERALS;
use encoding::cell_kinds::{
    CONSTANT, FIRST, FIRST_BY, FIXED, FIXED_BY, FREE, LAST_ITEM, LENGTH, LITERAL, MINUS, NEGATIVE,
    NOTHING, NUMBER, NUMBER_OF, NUMBER_OF_FIRST, NUMBER_OF_FIRST_BY, OVER, PLUS, POSITIVE, RANGE,
    STRING, TEXT, TEXT_BY, TIMES,
};
use encoding::cells::{Cell, Counts};
use encoding::{ELEMENTS_AT, RANGE_STEP, TABLE_CELL, WAITING};

// integers are kept with a bias and lie between limits
const BIAS: usize = encoding::BIAS as usize;

const LIMIT: usize = numbers::LIMIT as usize;

// one past the greatest constant
const PAST: usize = BIAS + LIMIT + 1;

// a value has 6 bytes
const VALUES: usize = 281_474_976_710_656;

// what the place of a cell counts
// kept: NoPlace and NoValue, and in steps NoFlag to NoRight, are rules with a test of their own; as None of an Option each match would nest
#[derive(Clone, Copy)]
pub enum PlaceRule {
    NoPlace,
    OfString,
    OfNumber,
}

// what the value of a cell is
#[derive(Clone, Copy)]
pub enum ValueRule {
    NoValue,
    Natural,
    Signed,
    Placed,
    Spelt,
}

// what a kind asks of a cell
#[derive(Clone, Copy)]
pub struct CellRule {
    pub place: PlaceRule,
    pub value: ValueRule,
}

const ALONE: CellRule = CellRule {
    place: PlaceRule::NoPlace,
    value: ValueRule::NoValue,
};

const ALONE_SIGNED: CellRule = CellRule {
    value: ValueRule::Signed,
    ..ALONE
};

const ALONE_SPELT: CellRule = CellRule {
    value: ValueRule::Spelt,
    ..ALONE
};

const OF_STRING: CellRule = CellRule {
    place: PlaceRule::OfString,
    ..ALONE
};

const OF_STRING_NATURAL: CellRule = CellRule {
    value: ValueRule::Natural,
    ..OF_STRING
};

const OF_STRING_PLACED: CellRule = CellRule {
    value: ValueRule::Placed,
    ..OF_STRING
};

const OF_NUMBER: CellRule = CellRule {
    place: PlaceRule::OfNumber,
    ..ALONE
};

const OF_NUMBER_SIGNED: CellRule = CellRule {
    value: ValueRule::Signed,
    ..OF_NUMBER
};

const OF_NUMBER_PLACED: CellRule = CellRule {
    value: ValueRule::Placed,
    ..OF_NUMBER
};

// What a kind asks of a cell, if there is such a kind.
#[inline(always)]
fn rule_of(kind: u8) -> Option<CellRule>
    ensures { option_map cell_rule_asks result ≡ cell_asked kind }
{
    match kind {
        NOTHING => Some(ALONE),
        PLUS => Some(ALONE),
        MINUS => Some(ALONE),
        TIMES => Some(ALONE),
        OVER => Some(ALONE),
        POSITIVE => Some(ALONE),
        NEGATIVE => Some(ALONE),
        CONSTANT => Some(ALONE_SIGNED),
        NUMBER => Some(OF_NUMBER),
        LENGTH => Some(OF_STRING),
        NUMBER_OF => Some(OF_STRING),
        NUMBER_OF_FIRST => Some(OF_STRING_NATURAL),
        NUMBER_OF_FIRST_BY => Some(OF_STRING_PLACED),
        STRING => Some(OF_STRING),
        FIRST => Some(OF_STRING_NATURAL),
        FIRST_BY => Some(OF_STRING_PLACED),
        LITERAL => Some(ALONE_SPELT),
        TEXT => Some(OF_NUMBER_SIGNED),
        TEXT_BY => Some(OF_NUMBER_PLACED),
        FREE => Some(OF_STRING),
        FIXED => Some(OF_STRING_NATURAL),
        FIXED_BY => Some(OF_STRING_PLACED),
        RANGE => Some(ALONE_SPELT),
        _ => None,
    }
}

// What the place lies under: strings, numbers, 1 where it names nothing.
fn place_bound(rule: PlaceRule, n: Counts) -> usize
    ensures { result ≡ place_bound n.strings n.numbers (place_meaning rule) }
{
    match rule {
        PlaceRule::NoPlace => 1,
        PlaceRule::OfString => n.strings,
        PlaceRule::OfNumber => n.numbers,
    }
}

// The least value: only constants have one.
fn value_low(rule: ValueRule) -> usize
    ensures { result ≡ value_low (value_meaning rule) }
{
    match rule {
        ValueRule::NoValue | ValueRule::Placed | ValueRule::Spelt => 0,
        ValueRule::Natural => BIAS,
        ValueRule::Signed => BIAS - LIMIT,
    }
}

// What the value lies under: a constant by the limit, the place of a number, any range, or nothing but 0.
fn value_bound(rule: ValueRule, n: Counts) -> usize
    ensures { result ≡ value_bound n.strings n.numbers (value_meaning rule) }
{
    match rule {
        ValueRule::NoValue => 1,
        ValueRule::Natural | ValueRule::Signed => PAST,
        ValueRule::Placed => n.numbers,
        ValueRule::Spelt => VALUES,
    }
}

// Whether place and value are as a rule asks for.
fn fits(rule: CellRule, c: Cell, n: Counts) -> bool
    ensures { result ≡ fit_test n.strings n.numbers (cell_rule_asks rule) (cell_meaning c) }
{
    ((c.place as usize) < place_bound(rule.place, n))
        & (value_low(rule.value) <= c.value)
        & (c.value < value_bound(rule.value, n))
}

// Whether a cell is as its kind asks for.
fn is_ruled(c: Cell, n: Counts) -> bool
    ensures { result ≡ asked_test n.strings n.numbers (cell_asked c.kind) (cell_meaning c) }
{
    match rule_of(c.kind) {
        Some(rule) => fits(rule, c, n),
        None => false,
    }
}

// Whether a cell is of a kind from low to high, with a place and a value as the kind asks for.
#[inline(never)]
pub fn cell_holds(c: Cell, low: u8, high: u8, n: Counts) -> bool
    ensures { result ≡ cell_test n.strings n.numbers low high (cell_meaning c) }
{
    (low <= c.kind) & (c.kind <= high) & is_ruled(c, n)
}

// How many literal bytes the value is the range of.
fn own_length(rule: ValueRule, value: usize) -> usize
    ensures { (result ≡ own_length (value_meaning rule) value) × (result < 2 ^ 16) }
{
    match rule {
        ValueRule::Spelt => value / RANGE_STEP % RANGE_STEP,
        _ => 0,
    }
}

// Whether a literal has a byte and its range says that it stands at a place, and all of it lies among the literals.
fn literal_holds(rule: ValueRule, value: usize, at: usize) -> bool
    requires { at ≤ 65536 }
    ensures { result ≡ literal_test (value_meaning rule) at value }
{
    let own = own_length(rule, value);
    let inside = at + own <= LITERALS;
    match rule {
        ValueRule::Spelt => (1 <= own) & (value == at + RANGE_STEP * own) & inside,
        _ => inside,
    }
}

// The place among the literals behind an element whose literal stands at a place: none if the element breaks a rule. Kinds go up to high.
// kept: at's bound by a clause, here, above and below: it is the literals' part of Places, whose bound is no ghost field (steps)
fn element_end(c: Cell, high: u8, at: usize, n: Counts) -> Option<usize>
    requires { at ≤ 65536 }
    ensures is { result ≡ element_end n.strings n.numbers n.steps high at (cell_meaning c) }
    ensures inside { IfSome result (λ end. end ≤ 4096) }
{
    let rule = rule_of(c.kind)?;
    let value = c.value;
    let holds = (STRING <= c.kind)
        & (c.kind <= high)
        & fits(rule, c, n)
        & literal_holds(rule.value, value, at);
    if holds {
        return Some(at + own_length(rule.value, value));
    }
    None
}

// The place among the literals behind so many elements, from element k on: none if one breaks a rule.
// kept: by index, as are the crate's other loops: each reads, mostly by decoder, at a place of the table, from which chunks_exact would cut first
// kept: place and count, here and below, come apart: one is out of Places, one out of Stretches, and a Stretch of both would be made at each call
pub fn elements_end(
    t: &[u8],
    k: usize,
    count: usize,
    high: u8,
    at: usize,
    n: Counts,
) -> Option<usize>
    requires { (table_size ≤ length t.now) × (k + count ≤ 1024) × (at ≤ 65536) }
    ensures is { result ≡ elements_end n.strings n.numbers n.steps high t.now k at count }
    ensures inside { IfSome result (λ end. end ≤ 65536) }
{
    let mut end = at;
    for i in k..k + count {
        let c = decoder::cell_at(t, ELEMENTS_AT + TABLE_CELL * i);
        end = element_end(c, high, end, n)?;
    }
    Some(end)
}

// Whether the role of an element of a pattern is as it should be: no string has the place of a filler left of it, which is marked, and no
// filler that of the reference.
// kept: marked is a truth with no value beside it: what marks says of the place
fn role_holds(kind: u8, place: usize, marked: bool, reference: usize) -> bool
    ensures { result ≡ role_test reference kind place marked }
{
    if kind < LITERAL {
        return !marked;
    }
    if kind < FREE {
        return true;
    }
    place != reference
}

// Whether the roles of so many elements of a pattern, from element k on, are.
// kept: kind and place by their bytes, by the order of kinds: decoder's PatternElement would have a filler's length made too, which no role asks
pub fn roles_hold(t: &[u8], k: usize, count: usize, reference: usize) -> bool
    requires { (table_size ≤ length t.now) × (k + count ≤ 1024) }
    ensures { result ≡ roles_test t.now reference (replicate 256 false) k count }
{
    // kept: a mark for each place that a byte may name, in fixed memory
    let mut marks = [false; 256];
    for i in k..k + count {
        let at = ELEMENTS_AT + TABLE_CELL * i;
        let kind = t[at];
        let place = t[at + 1] as usize;
        if !role_holds(kind, place, marks[place], reference) {
            return false;
        }
        if FREE <= kind {
            marks[place] = true;
        }
    }
    true
}

// How many of the waiting numbers an item takes: an operator two, a sign one, an operand none.
fn item_used(kind: u8) -> usize
    ensures { (result ≡ item_used kind) × (result ≤ 2) }
{
    if kind < POSITIVE {
        return 2;
    }
    if kind < CONSTANT {
        return 1;
    }
    0
}

// How many numbers wait behind an item: none if it breaks a rule, finds too few or leaves too many.
fn item_end(c: Cell, known: usize, n: Counts) -> Option<usize>
    requires { known ≤ 65536 }
    ensures is { result ≡ item_end n.strings n.numbers n.steps known (cell_meaning c) }
    ensures room { IfSome result (λ left. left ≤ 64) }
{
    let used = item_used(c.kind);
    if !cell_holds(c, PLUS, LAST_ITEM, n) {
        return None;
    }
    if known < used {
        return None;
    }
    let left = known + 1 - used;
    if WAITING < left {
        return None;
    }
    Some(left)
}

// How many numbers wait behind so many items, from item k on: none if one breaks a rule.
// kept: as elements_end goes: one function of a region and of a cell's test would have to state each test's bounds as facts of any test
pub fn items_end(t: &[u8], k: usize, count: usize, n: Counts) -> Option<usize>
    requires { (table_size ≤ length t.now) × (k + count ≤ 1024) }
    ensures { result ≡ items_end n.strings n.numbers n.steps t.now k 0 count }
{
    let mut known = 0;
    for i in k..k + count {
        let c = decoder::cell_at(t, encoding::ITEMS_AT + TABLE_CELL * i);
        known = item_end(c, known, n)?;
    }
    Some(known)
}
