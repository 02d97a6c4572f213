// The statements that a table's rows hold, as enums. The contracts cite the table's reading in crate encoding.
// Assumes nothing.
#![tactic(auto)]

ghost use Rattle.std.specs.Prelude.{List, ◌≡◌, ℕ, ◌+◌, ◌*◌, ◌≤◌, ◌<◌, ◌^◌, length};
ghost use Rattle.base.specs.Current.{table_size};
ghost use Rattle.encoding.specs.Numerals.{numeral_at};
ghost use Rattle.encoding.specs.Table.{steps_at, elements_at, items_at};
ghost use Rattle.encoding.specs.TableReading.{cell_at, read_row_at, part_of_cell, operand_of_cell, item_of_cell, comparison_of, direction_of};
ghost use Rattle.numbers.specs.Numbers.{comparison_meaning};
ghost use Rattle.encoding.specs.Meaning.{cell_meaning, row_meaning, direction_meaning};
ghost use Rattle.decoder.specs.Meaning.{part_meaning, operand_meaning, operator_meaning, item_meaning};
ghost use Rattle.decoder.specs.Reading.{is_operand_kind, operator_of_kind, CellDecoded, RowDecoded, SmallRow, StretchRead, BehindRead};
ghost use Rattle.decoder.specs.Reading.{ElementDecoded, PatternRead, IfDecoded, ScanDecoded, StatementDecoded, CountsRead};

use encoding::cells::{Branch, Cell, Counts, Direction, Row};
use encoding::{
    ELEMENTS_AT, ITEMS_AT, LITERALS_AT, RANGE_MORE, RANGE_STEP, STEP_ROW, STEPS_AT, TABLE_CELL,
    cell_kinds, step_kinds,
};
use numbers::{Comparison, Int, unbiased};
use store::spans::number2;

// kept: that places and constants are in range (PartHolds and so on) is no ghost field of the types below: any table is decoded, not only one
// that keeps its rules; so those who use what was decoded ask for it

// the n of S$n or STRING(n,m): a constant, or the number of this place
#[derive(Clone, Copy)]
pub enum Length {
    Constant(Int),
    Number(usize),
}

// a string, or its first n bytes
#[derive(Clone, Copy)]
pub enum Part {
    Whole(usize),
    First(usize, Length),
}

// an operand of an expression or of IF; the place of a number is a byte, as a cell has it
#[derive(Clone, Copy)]
pub enum Operand {
    Constant(Int),
    Number(u8),
    LengthOf(usize),
    NumberOf(Part),
}

#[derive(Clone, Copy)]
pub enum Operator {
    Plus,
    Minus,
    Times,
    Over,
}

#[derive(Clone, Copy)]
pub enum Sign {
    Positive,
    Negative,
}

// an item of a numeric expression, which is in postfix order
#[derive(Clone, Copy)]
pub enum Item {
    Operand(Operand),
    Operator(Operator),
    Sign(Sign),
}

// an element of a string expression: a literal by its ends in the table, a part of a string, STRING(n,m)
#[derive(Clone, Copy)]
pub enum Element {
    Literal(usize, usize),
    Part(Part),
    Text(Length, usize),
}

#[derive(Clone, Copy)]
pub enum PatternElement {
    Value(Element),
    Free(usize),
    Fixed(usize, Length),
}

// so many items or elements, from a place among all of them on
// kept: loops write from..from + count: a range that a method answers was tried, and the loop's invariant then knows an iterator, no place (loop-at)
#[derive(Clone, Copy)]
pub struct Stretch {
    pub from: usize,
    pub count: usize,
}

// IF with two operands and a sign
// kept: a struct of its own in Statement, as document 01 has it (F11)
#[derive(Clone, Copy)]
pub struct If {
    pub left: Operand,
    pub right: Operand,
    pub sign: Comparison,
}

// SCAN or BACKSCAN
#[derive(Clone, Copy)]
pub struct Scan {
    pub direction: Direction,
    pub part: Part,
    pub pattern: Stretch,
    pub replacement: Option<Stretch>,
    pub branch: Branch,
}

#[derive(Clone, Copy)]
pub enum Statement {
    SetNumber(usize, Stretch),
    SetString(Part, Stretch),
    Goto(usize),
    Finish,
    IfNull(usize, Branch),
    IfNumeric(Part, Branch),
    If(If, Branch),
    Scan(Scan),
    Read(Part, Branch),
    Write(Stretch),
    Execute(usize),
    Return,
}

// a number of 6 bytes
// kept: of number2: from_le_bytes of these six and two zeros would want a law that the zeros count nothing
pub fn number6(t: &[u8], at: usize) -> usize
    requires { at + 6 ≤ length t.now }
    ensures { (result ≡ numeral_at 6 t.now at) × (result < 2 ^ 48) }
{
    number2(t, at) + 65_536 * (number2(t, at + 2) + 65_536 * number2(t, at + 4))
}

pub fn cell_at(t: &[u8], at: usize) -> Cell
    requires { at + 8 ≤ length t.now }
    ensures { CellDecoded t.now at result }
{
    Cell {
        kind: t[at],
        place: t[at + 1],
        value: number6(t, at + 2),
    }
}

// a string, or its first bytes by a constant or by a number: three kinds in a row, of which the first is given, as to part_of_cell
// kept: functions and no From, here and in those below of a Cell: each asks that the value is below 2^48, which From doesn't
fn part_of(first: u8, c: Cell) -> Part
    requires { (first ≤ 64) × (c.value < 2 ^ 48) }
    ensures { part_meaning result ≡ part_of_cell first (cell_meaning c) }
{
    let kind = c.kind;
    let place = c.place as usize;
    if kind == first {
        return Part::Whole(place);
    }
    if kind == first + 1 {
        return Part::First(place, Length::Constant(unbiased(c.value as u64)));
    }
    if kind == first + 2 {
        return Part::First(place, Length::Number(c.value));
    }
    Part::Whole(0)
}

fn operand_of(c: Cell) -> Operand
    requires { c.value < 2 ^ 48 }
    ensures { operand_meaning result ≡ operand_of_cell (cell_meaning c) }
{
    match c.kind {
        cell_kinds::CONSTANT => Operand::Constant(unbiased(c.value as u64)),
        cell_kinds::NUMBER => Operand::Number(c.place),
        cell_kinds::LENGTH => Operand::LengthOf(c.place as usize),
        _ => Operand::NumberOf(part_of(cell_kinds::NUMBER_OF, c)),
    }
}

// the operator of this kind, if it is one of an operator
pub fn operator_of(kind: u8) -> Operator
    ensures { operator_meaning result ≡ operator_of_kind kind }
{
    match kind {
        cell_kinds::PLUS => Operator::Plus,
        cell_kinds::MINUS => Operator::Minus,
        cell_kinds::TIMES => Operator::Times,
        _ => Operator::Over,
    }
}

fn item_of(c: Cell) -> Item
    requires { c.value < 2 ^ 48 }
    ensures { item_meaning result ≡ item_of_cell (cell_meaning c) }
{
    match c.kind {
        cell_kinds::PLUS | cell_kinds::MINUS | cell_kinds::TIMES | cell_kinds::OVER => {
            Item::Operator(operator_of(c.kind))
        }
        cell_kinds::POSITIVE => Item::Sign(Sign::Positive),
        cell_kinds::NEGATIVE => Item::Sign(Sign::Negative),
        _ => Item::Operand(operand_of(c)),
    }
}

// the first two numbers of a range
fn stretch_of(range: usize) -> Stretch
    ensures { StretchRead range result }
{
    Stretch {
        from: range % RANGE_STEP,
        count: range / RANGE_STEP % RANGE_STEP,
    }
}

// what stands behind them, as many as its third number
fn behind_of(range: usize) -> Stretch
    requires { range < 2 ^ 48 }
    ensures { BehindRead range result }
{
    let s = stretch_of(range);
    Stretch {
        from: s.from + s.count,
        count: range / RANGE_MORE,
    }
}

fn element_of(c: Cell) -> Element
    requires { c.value < 2 ^ 48 }
    ensures { (t : List ℕ) → ElementDecoded t (cell_meaning c) result }
{
    match c.kind {
        cell_kinds::LITERAL => {
            let s = stretch_of(c.value);
            Element::Literal(LITERALS_AT + s.from, LITERALS_AT + s.from + s.count)
        }
        cell_kinds::TEXT => Element::Text(
            Length::Constant(unbiased(c.value as u64)),
            c.place as usize,
        ),
        cell_kinds::TEXT_BY => Element::Text(Length::Number(c.value), c.place as usize),
        _ => Element::Part(part_of(cell_kinds::STRING, c)),
    }
}

fn pattern_of(c: Cell) -> PatternElement
    requires { c.value < 2 ^ 48 }
    ensures { (t : List ℕ) → PatternRead t (cell_meaning c) result }
{
    match c.kind {
        cell_kinds::FREE => PatternElement::Free(c.place as usize),
        cell_kinds::FIXED => PatternElement::Fixed(
            c.place as usize,
            Length::Constant(unbiased(c.value as u64)),
        ),
        cell_kinds::FIXED_BY => PatternElement::Fixed(c.place as usize, Length::Number(c.value)),
        _ => PatternElement::Value(element_of(c)),
    }
}

// item k of all items
// kept: this, operand_at, element_at and pattern_at are a line each; one function of a region and of what a cell is would say no less at its calls
// kept: k has its bound in a clause: a type for it would be made anew at each turn of the loops over such places
pub fn item_at(t: &[u8], k: usize) -> Item
    requires { (table_size ≤ length t.now) × (k < 1024) }
    ensures { item_meaning result ≡ item_of_cell (cell_at t.now (items_at + 8 * k)) }
{
    item_of(cell_at(t, ITEMS_AT + TABLE_CELL * k))
}

// whether item k of all items is an operand, where the table keeps its rules
pub fn is_operand_at(t: &[u8], k: usize) -> bool
    requires { (table_size ≤ length t.now) × (k < 1024) }
    ensures { result ≡ is_operand_kind (cell_at t.now (items_at + 8 * k)).kind }
{
    cell_kinds::CONSTANT <= t[ITEMS_AT + TABLE_CELL * k]
}

// item k of all items, which is an operator
pub fn operator_at(t: &[u8], k: usize) -> Operator
    requires { (table_size ≤ length t.now) × (k < 1024) }
    ensures { operator_meaning result ≡ operator_of_kind (cell_at t.now (items_at + 8 * k)).kind }
{
    operator_of(t[ITEMS_AT + TABLE_CELL * k])
}

// item k of all items, which is an operand
pub fn operand_at(t: &[u8], k: usize) -> Operand
    requires { (table_size ≤ length t.now) × (k < 1024) }
    ensures { operand_meaning result ≡ operand_of_cell (cell_at t.now (items_at + 8 * k)) }
{
    operand_of(cell_at(t, ITEMS_AT + TABLE_CELL * k))
}

// element k of all elements, outside a pattern
pub fn element_at(t: &[u8], k: usize) -> Element
    requires { (table_size ≤ length t.now) × (k < 1024) }
    ensures { ElementDecoded t.now (cell_at t.now (elements_at + 8 * k)) result }
{
    element_of(cell_at(t, ELEMENTS_AT + TABLE_CELL * k))
}

// element k of all elements, in a pattern
pub fn pattern_at(t: &[u8], k: usize) -> PatternElement
    requires { (table_size ≤ length t.now) × (k < 1024) }
    ensures { PatternRead t.now (cell_at t.now (elements_at + 8 * k)) result }
{
    pattern_of(cell_at(t, ELEMENTS_AT + TABLE_CELL * k))
}

pub fn row_at(t: &[u8], at: usize) -> Row
    requires { at + 24 ≤ length t.now }
    ensures { RowDecoded t.now at result }
{
    Row {
        kind: t[at],
        flag: t[at + 1],
        branch: Branch {
            success: number2(t, at + 4),
            failure: number2(t, at + 6),
        },
        left: cell_at(t, at + 8),
        right: cell_at(t, at + 16),
    }
}

// kept: a function, as direction_of and operator_of: the contract says it in one clause, where From has a ghost member for it
fn comparison_of(flag: u8) -> Comparison
    ensures { comparison_meaning result ≡ comparison_of flag }
{
    match flag {
        1 => Comparison::Equal,
        2 => Comparison::Unequal,
        3 => Comparison::Less,
        4 => Comparison::Greater,
        5 => Comparison::AtMost,
        _ => Comparison::AtLeast,
    }
}

// the operands and the sign of an IF that has them
fn if_of(r: Row) -> If
    requires { SmallRow r }
    ensures { IfDecoded (row_meaning r) result }
{
    If {
        left: operand_of(r.left),
        sign: comparison_of(r.flag),
        right: operand_of(r.right),
    }
}

fn direction_of(flag: u8) -> Direction
    ensures { direction_meaning result ≡ direction_of flag }
{
    match flag {
        1 => Direction::Forward,
        _ => Direction::Backward,
    }
}

// a scan with this replacement
fn scan_of(r: Row, replacement: Option<Stretch>) -> Scan
    requires { SmallRow r }
    ensures { ScanDecoded (row_meaning r) replacement result }
{
    Scan {
        direction: direction_of(r.flag),
        part: part_of(cell_kinds::STRING, r.left),
        pattern: stretch_of(r.right.value),
        replacement,
        branch: r.branch,
    }
}

// the statement of a row: one case for each kind; a row of no kind finishes
fn statement_of(r: Row) -> Statement
    requires { SmallRow r }
    ensures { (t : List ℕ) → StatementDecoded t (row_meaning r) result }
{
    match r.kind {
        step_kinds::SET_NUMBER => Statement::SetNumber(
            r.left.place as usize,
            stretch_of(r.right.value),
        ),
        step_kinds::SET_STRING => Statement::SetString(
            part_of(cell_kinds::STRING, r.left),
            stretch_of(r.right.value),
        ),
        step_kinds::GOTO => Statement::Goto(r.branch.success),
        step_kinds::FINISH => Statement::Finish,
        step_kinds::EXECUTE => Statement::Execute(r.branch.success),
        step_kinds::RETURN => Statement::Return,
        step_kinds::NULL => Statement::IfNull(r.left.place as usize, r.branch),
        step_kinds::NUMERIC => Statement::IfNumeric(part_of(cell_kinds::STRING, r.left), r.branch),
        step_kinds::COMPARE => Statement::If(if_of(r), r.branch),
        step_kinds::SCAN => Statement::Scan(scan_of(r, None)),
        step_kinds::REPLACE => Statement::Scan(scan_of(r, Some(behind_of(r.right.value)))),
        step_kinds::READ => Statement::Read(part_of(cell_kinds::STRING, r.left), r.branch),
        step_kinds::WRITE => Statement::Write(stretch_of(r.right.value)),
        _ => Statement::Finish,
    }
}

// the kind of step k
// kept: the number, as encoding/step_kinds says: it is asked for alone, where the rest of the row isn't
pub fn kind_at(t: &[u8], k: usize) -> u8
    requires { (table_size ≤ length t.now) × (k < 256) }
    ensures { result ≡ (read_row_at t.now (steps_at + 24 * k)).kind }
{
    t[STEPS_AT + STEP_ROW * k]
}

// the statement of step k
pub fn statement_at(t: &[u8], k: usize) -> Statement
    requires { (table_size ≤ length t.now) × (k < 256) }
    ensures { StatementDecoded t.now (read_row_at t.now (steps_at + 24 * k)) result }
{
    statement_of(row_at(t, STEPS_AT + STEP_ROW * k))
}

pub fn counts_of(t: &[u8]) -> Counts
    requires { table_size ≤ length t.now }
    ensures { CountsRead t.now result }
{
    Counts {
        steps: number2(t, 2),
        strings: number2(t, 4),
        numbers: number2(t, 6),
        elements: number2(t, 8),
        items: number2(t, 10),
        literals: number2(t, 12),
    }
}
