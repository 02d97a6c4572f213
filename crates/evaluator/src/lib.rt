// The values of operands, numeric and string expressions and tests in the interpreter's memory: a store of cells for the strings, a state
// that keeps the numbers with a bias added. Each contract is an equation with the definitions of the crate machine.
#![tactic(auto)]

mod memory;

ghost use Rattle.std.specs.Prelude.{List, ◌≡◌, ℕ, ◌+◌, ◌-◌, ◌<◌, ◌≤◌, length};
ghost use Rattle.base.specs.Current.{current, table_size};
ghost use Rattle.encoding.specs.BufferLaws.{StoreGood};
ghost use Rattle.store.specs.Clauses.{string_of};
ghost use Rattle.numbers.specs.Numbers.{IntInRange, BothInRange, GivesInt, NumberAnswers};
ghost use Rattle.syntax.specs.Program.{is_null, is_numeric};
ghost use Rattle.machine.specs.Expressions as Expressions;
ghost use Rattle.machine.specs.Expressions.{length_in, part_in, operand_in, item_in, numeric_in, element_in, string_in, test_in};
ghost use Rattle.machine.specs.State.{number_at};
ghost use Rattle.decoder.specs.Holds.{LengthHolds, PartHolds, OperandHolds, IfHolds, ItemsHold, ElementsHold};
ghost use Rattle.decoder.specs.Meaning.{length_meaning, part_meaning, operand_meaning, operator_meaning, sign_meaning, item_meaning, items_meaning};
ghost use Rattle.decoder.specs.Meaning.{element_meaning, elements_meaning, if_meaning};
ghost use Rattle.values.specs.Conversion.{substring, text_of};
ghost use Rattle.values.specs.Result.{done};
ghost use Rattle.evaluator.specs.Appending.{Appended, Addable, Appends};
ghost use Rattle.evaluator.specs.Memory.{memory_in, StateNumbered};
ghost use Rattle.evaluator.specs.Meaning.{memory_meaning};
ghost use Rattle.evaluator.specs.Pairs.{PairAt};
ghost use Rattle.evaluator.specs.Values.{GivesBytes, then_number, ValueWritten, truth_worked};
ghost use Rattle.evaluator.specs.Waiting.{waiting_in, signed_as, Waits, Pushable, Poppable, OnTop, waiting_after, Takable, ItemTaken};

use base::LONGEST;
use decoder::{Element, If, Item, Length, Operand, Operator, Part, Sign, Stretch};
use encoding::{STATE_SIZE, WAITING};
pub use memory::Memory;
use numbers::Int;
use values::{Noted, Stop};

// kept: places and constants in range by clauses, as crate decoder says
// kept: a string's buffer is a slice of 1,024 bytes: callers lend a part of values, which the scan reads as one run of bytes (C interface); such a
// part as an array comes as an Option (first_chunk_mut), whose None each of them would have to answer

// the numbers that wait for an operator, the latest last
// kept: no ArrayVec of the kit, whose pop also tests and writes a blank: a deck of long expressions took 1.12 of the instructions, of short ones 1.03
#[derive(Drop)]
struct Stack {
    numbers: [Int; WAITING],
    count: usize,
}

impl Stack {
    // z waits
    fn push(&mut self, z: Int)
        requires { Pushable self.old z }
        ensures { OnTop z self.old self.new × Waits self.new }
    {
        self.numbers[self.count] = z;
        self.count += 1;
    }

    // the latest no longer waits
    fn pop(&mut self) -> Int
        requires { Poppable self.old }
        ensures { OnTop result self.new self.old × Waits self.new × IntInRange result }
    {
        self.count -= 1;
        self.numbers[self.count]
    }
}

// the number of this place
// kept: the state alone, here and in length_value, with StateNumbered: effects asks for a length where the store is lent to be written
pub fn number_at(state: &[u64; STATE_SIZE], place: usize) -> Int
    requires state_numbered { StateNumbered state.now }
    requires place_bound { place < 32 }
    ensures { (store : List ℕ) → GivesInt result (number_at (memory_in store state.now) place) }
{
    state::number(state, place)
}

// a constant, or the number of its place
pub fn length_value(state: &[u64; STATE_SIZE], n: Length) -> Int
    requires state_numbered { StateNumbered state.now }
    requires length_holds { LengthHolds n }
    ensures { (store : List ℕ) → GivesInt result (length_in (memory_in store state.now) (length_meaning n)) }
{
    match n {
        Length::Constant(z) => z,
        Length::Number(i) => number_at(state, i),
    }
}

// the first n bytes of the string of this place; all if it is shorter, none and a note if n is negative
fn first_bytes<'a>(memory: Memory<'a>, place: usize, n: Int) -> Noted<&'a [u8]>
    requires { place < 32 }
    ensures { GivesBytes result (substring (string_of memory.entry.store.now place) n.value) }
{
    let string = store::string(memory.store, place);
    match numbers::natural(n) {
        Some(most) => Noted::plain(&string[..most.min(string.len())]),
        None => Noted {
            value: &[],
            notes: 1,
        },
    }
}

// the bytes of a part of a string
fn part_bytes<'a>(memory: Memory<'a>, p: Part) -> Noted<&'a [u8]>
    requires { PartHolds p }
    ensures { GivesBytes result (part_in (memory_meaning memory.entry) (part_meaning p)) }
{
    match p {
        Part::Whole(s) => Noted::plain(store::string(memory.store, s)),
        Part::First(s, n) => first_bytes(memory, s, length_value(memory.state, n)),
    }
}

// NUMBER of a part of a string. A function of its own, never put into its caller: so operands that need no such work stay quick.
#[inline(never)]
fn part_number(memory: Memory, p: Part) -> Result<Noted<Int>, Stop>
    requires { PartHolds p }
    ensures { NumberAnswers result (then_number (part_in (memory_meaning memory.entry) (part_meaning p))) }
{
    let part = part_bytes(memory, p);
    let number = numbers::number_of(part.value)?;
    Ok(number.behind(part.notes))
}

// a constant, a number, the length of a string, or NUMBER of a part of one
#[inline]
pub fn operand_value(memory: Memory, a: Operand) -> Result<Noted<Int>, Stop>
    requires { OperandHolds a }
    ensures { NumberAnswers result (operand_in current (memory_meaning memory.entry) (operand_meaning a)) }
{
    match a {
        Operand::Constant(z) => Ok(Noted::plain(z)),
        Operand::Number(i) => Ok(Noted::plain(number_at(memory.state, i as usize))),
        Operand::LengthOf(s) => Ok(Noted::plain(numbers::int_of(
            store::string_length(memory.store, s) as u64,
        ))),
        Operand::NumberOf(p) => part_number(memory, p),
    }
}

// what an operator makes of two numbers
fn operation(o: Operator, a: Int, b: Int) -> Result<Noted<Int>, Stop>
    requires { BothInRange a b }
    ensures { NumberAnswers result (Expressions.operation current (operator_meaning o) a.value b.value) }
{
    match o {
        Operator::Plus => numbers::add(a, b),
        Operator::Minus => numbers::subtract(a, b),
        Operator::Times => numbers::multiply(a, b),
        Operator::Over => numbers::divide(a, b),
    }
}

// z with a sign
fn signed(g: Sign, z: Int) -> Int
    requires { IntInRange z }
    ensures { GivesInt result (signed_as (sign_meaning g) z.value) }
{
    match g {
        Sign::Positive => z,
        Sign::Negative => numbers::negate(z),
    }
}

// an item changes the latest of the waiting numbers; gives the notes made
fn take_item(memory: Memory, x: Item, waiting: &mut Stack) -> Result<u32, Stop>
    requires { Takable x waiting.old }
    ensures { ItemTaken result waiting.new (waiting_after waiting.old.count x)
        (item_in current (memory_meaning memory.entry) (waiting_in waiting.old) (item_meaning x)) }
{
    match x {
        Item::Operand(a) => {
            let value = operand_value(memory, a)?;
            waiting.push(value.value);
            Ok(value.notes)
        }
        Item::Operator(o) => {
            let b = waiting.pop();
            let a = waiting.pop();
            let made = operation(o, a, b)?;
            waiting.push(made.value);
            Ok(made.notes)
        }
        Item::Sign(g) => {
            let z = waiting.pop();
            waiting.push(signed(g, z));
            Ok(0)
        }
    }
}

// the value of two operands and the operator behind them
fn pair_value(table: &[u8], memory: Memory, s: Stretch) -> Result<Noted<Int>, Stop>
    requires items_hold { (table_size ≤ length table.now) × ItemsHold table.now s }
    requires pair_at { PairAt table.now s }
    ensures { NumberAnswers result
        (numeric_in current (memory_meaning memory.entry) (items_meaning table.now s)) }
{
    let from = s.from;
    let a = operand_value(memory, decoder::operand_at(table, from))?;
    let b = operand_value(memory, decoder::operand_at(table, from + 1))?;
    let made = operation(decoder::operator_at(table, from + 2), a.value, b.value)?;
    Ok(made.behind(a.notes + b.notes))
}

// the value of a numeric expression, item by item; each operator finds its operands waiting
// kept: by index, here and in string_value: decoder reads an item or element by its place among all of them
fn items_value(table: &[u8], memory: Memory, s: Stretch) -> Result<Noted<Int>, Stop>
    requires { (table_size ≤ length table.now) × ItemsHold table.now s }
    ensures { NumberAnswers result
        (numeric_in current (memory_meaning memory.entry) (items_meaning table.now s)) }
{
    let mut waiting = Stack {
        numbers: [Int { value: 0 }; WAITING],
        count: 0,
    };
    let mut notes = 0;
    for at in s.from..s.from + s.count {
        let x = decoder::item_at(table, at);
        notes += take_item(memory, x, &mut waiting)?;
    }
    Ok(Noted {
        value: waiting.pop(),
        notes,
    })
}

// the value of a numeric expression; most are a pair, for which no number has to wait
pub fn numeric_value(table: &[u8], memory: Memory, s: Stretch) -> Result<Noted<Int>, Stop>
    requires { (table_size ≤ length table.now) × ItemsHold table.now s }
    ensures { NumberAnswers result
        (numeric_in current (memory_meaning memory.entry) (items_meaning table.now s)) }
{
    if s.count == 3 {
        if decoder::is_operand_at(table, s.from + 1) {
            return pair_value(table, memory, s);
        }
    }
    items_value(table, memory, s)
}

// writes v from a place of a string's buffer on, as far as there is room
fn append(v: &[u8], out: &mut [u8], at: usize)
    requires { length out.old ≡ 1024 }
    ensures { Appended out.old out.new at v.now }
{
    if LONGEST <= at {
        return;
    }
    let end = (LONGEST - at).min(v.len());
    store::spans::write(out, at, &v[..end]);
}

// appends bytes, with the notes that came with them
fn append_noted(v: Noted<&[u8]>, out: &mut [u8], at: usize) -> Result<Noted<usize>, Stop>
    requires short { length v.value.now ≤ table_size }
    requires out_len { length out.old ≡ 1024 }
    ensures { Appends result out.old out.new at (done v.entry.value.now v.entry.notes) }
{
    append(v.value, out, at);
    Ok(Noted {
        value: v.value.len(),
        notes: v.notes,
    })
}

// appends STRING(n,m)
fn append_text(n: Int, m: Int, out: &mut [u8], at: usize) -> Result<Noted<usize>, Stop>
    requires both_in_range { BothInRange n m }
    requires out_len { length out.old ≡ 1024 }
    ensures { Appends result out.old out.new at (text_of n.value m.value) }
{
    let mut text = [0u8; LONGEST];
    let length = numbers::text_of(n, m, &mut text)?;
    append(&text[..length.value], out, at);
    Ok(length)
}

// appends an element
pub fn append_element(
    table: &[u8],
    memory: Memory,
    x: Element,
    out: &mut [u8],
    at: usize,
) -> Result<Noted<usize>, Stop>
    requires { Addable table.now x out.old }
    ensures { Appends result out.old out.new at
        (element_in current (memory_meaning memory.entry) (element_meaning table.now x)) }
{
    match x {
        Element::Literal(from, to) => append_noted(Noted::plain(&table[from..to]), out, at),
        Element::Part(p) => append_noted(part_bytes(memory, p), out, at),
        Element::Text(n, m) => append_text(
            length_value(memory.state, n),
            number_at(memory.state, m),
            out,
            at,
        ),
    }
}

// the value of a string expression, element by element: its length, and in out its bytes, of which only the first 1,024 have room
pub fn string_value(
    table: &[u8],
    memory: Memory,
    s: Stretch,
    out: &mut [u8],
) -> Result<Noted<usize>, Stop>
    requires elements_hold { (table_size ≤ length table.now) × ElementsHold table.now s }
    requires out_len { length out.old ≡ 1024 }
    ensures { ValueWritten result out.new
        (string_in current (memory_meaning memory.entry) (elements_meaning table.now s)) }
{
    let mut length = 0;
    let mut notes: u32 = 0;
    for at in s.from..s.from + s.count {
        let x = decoder::element_at(table, at);
        let more = append_element(table, memory, x, out, length)?;
        length += more.value;
        notes += more.notes;
    }
    Ok(Noted {
        value: length,
        notes,
    })
}

// whether the string of this place is null
pub fn is_null(store: &[u8], place: usize) -> bool
    requires store_good { StoreGood store.now }
    requires place_bound { place < 32 }
    ensures { (state : List ℕ) → done result 0 ≡ test_in current (memory_in store.now state) (is_null place) }
{
    store::string_length(store, place) == 0
}

// whether a part of a string is numeric
pub fn is_numeric(memory: Memory, p: Part) -> Noted<bool>
    requires { PartHolds p }
    ensures { done result.value result.notes ≡ test_in current (memory_meaning memory.entry) (is_numeric (part_meaning p)) }
{
    let part = part_bytes(memory, p);
    Noted {
        value: numbers::is_numeric(part.value),
        notes: part.notes,
    }
}

// whether two operands compare as the sign says, the left one valued first
pub fn compares(memory: Memory, x: If) -> Result<Noted<bool>, Stop>
    requires { IfHolds x }
    ensures { truth_worked result ≡ test_in current (memory_meaning memory.entry) (if_meaning x) }
{
    let left = operand_value(memory, x.left)?;
    let right = operand_value(memory, x.right)?;
    Ok(Noted {
        value: numbers::compare(x.sign, left.value, right.value),
        notes: left.notes + right.notes,
    })
}
