// Each kind of statement carried out on the buffers, the state moved on with it; a scan is not among them.
// Each contract says what the machine's work on the statement comes to (machine/Step: execution) and what that leaves in the buffers.
// kept: table, store and state come apart, as effects/valued.rt says; a string's buffer is a slice, as crate evaluator says
// kept: each answers notes or a stop, also where nothing stops it: they are the arms of one match, which then needs no Ok(0) in five of them
#![tactic(auto)]

ghost use Rattle.std.specs.Prelude.{List, ◌≡◌, ℕ, ◌+◌, ◌≤◌, ◌<◌, ◌^◌, length, get_or, set};
ghost use Rattle.calls.specs.Calls.{buffers};
ghost use Rattle.encoding.specs.BufferLaws.{StoreGood};
ghost use Rattle.evaluator.specs.Memory.{MemoryReady};
ghost use Rattle.syntax.specs.Program as Program;
ghost use Rattle.machine.specs.Step.{chosen};
ghost use Rattle.decoder.specs.Holds.{PartHolds, IfHolds};
ghost use Rattle.encoding.specs.Meaning.{branch_meaning};
ghost use Rattle.decoder.specs.Meaning.{part_meaning, if_meaning, items_meaning, elements_meaning};
ghost use Rattle.effects.specs.Valued.{ValueSpellable, Valuable, StateWritable};
ghost use Rattle.execution.specs.Executing.{Does};

use decoder::{If, Part, Stretch};
use encoding::STATE_SIZE;
use encoding::cells::Branch;
use evaluator::Memory;
use values::Stop;

// moves on to the step behind the state's
fn move_on(state: &mut [u64; STATE_SIZE])
    requires { get_or state.old 1 0 + 1 < 2 ^ 64 }
    ensures { state.new ≡ set state.old 1 (get_or state.old 1 0 + 1) }
{
    let next = state::next_step(state) + 1;
    state::go_to(state, next);
}

// moves on by a branch, to its step for success or to that for failure
// kept: success is a truth with no value beside it: what a test, a READ or a scan came to
#[tactic(auto, unfolding(machine::specs::Step::chosen))]
pub fn take_branch(state: &mut [u64; STATE_SIZE], success: bool, b: Branch)
    ensures { state.new ≡ set state.old 1 (chosen success (branch_meaning b)) }
{
    let k = if success { b.success } else { b.failure };
    state::go_to(state, k);
}

// a number set to an expression's value
// kept: set_number, set_string and write differ in what they lend to which work; move_on is what they share
pub fn set_number(
    table: &[u8],
    store: &[u8],
    state: &mut [u64; STATE_SIZE],
    place: usize,
    s: Stretch,
) -> Result<u32, Stop>
    requires valuable { Valuable table.now store.now state.old s }
    requires place_bound { (place < 32) × (get_or state.old 1 0 + 1 < 2 ^ 64) }
    ensures { (input output : List ℕ) → Does (Program.set_number place (items_meaning table.now s)) result
        (buffers store.now state.old output) (buffers store.now state.new output) input }
{
    let notes = effects::valued::assign(table, store, state, place, s)?;
    move_on(state);
    Ok(notes)
}

// a string set, or its first bytes, to an expression's value, which out keeps on the way
pub fn set_string(
    table: &[u8],
    store: &mut [u8],
    state: &mut [u64; STATE_SIZE],
    p: Part,
    s: Stretch,
    out: &mut [u8],
) -> Result<u32, Stop>
    requires value_spellable { ValueSpellable table.now store.old state.old s }
    requires part_holds { PartHolds p × (get_or state.old 1 0 + 1 < 2 ^ 64) }
    requires out_len { length out.old ≡ 1024 }
    ensures { (input output : List ℕ) → Does (Program.set_string (part_meaning p) (elements_meaning table.now s)) result
        (buffers store.old state.old output) (buffers store.new state.new output) input }
{
    let notes = effects::valued::set_string(table, store, state, p, s, out)?;
    move_on(state);
    Ok(notes)
}

// GOTO to the step of its label, and ROUTINE to the one behind its ENDROUTINE
pub fn go_to(state: &mut [u64; STATE_SIZE], k: usize) -> Result<u32, Stop>
    ensures { (store input output : List ℕ) → Does (Program.goto k) result
        (buffers store state.old output) (buffers store state.new output) input }
{
    state::go_to(state, k);
    Ok(0)
}

// END and EXIT
pub fn finish(state: &mut [u64; STATE_SIZE]) -> Result<u32, Stop>
    ensures { (store input output : List ℕ) → Does Program.finish result
        (buffers store state.old output) (buffers store state.new output) input }
{
    state::finish(state);
    Ok(0)
}

// IF NULL
pub fn if_null(
    store: &[u8],
    state: &mut [u64; STATE_SIZE],
    place: usize,
    b: Branch,
) -> Result<u32, Stop>
    requires { StoreGood store.now × (place < 32) }
    ensures { (input output : List ℕ) → Does (Program.if_test (Program.is_null place) (branch_meaning b)) result
        (buffers store.now state.old output) (buffers store.now state.new output) input }
{
    let null = evaluator::is_null(store, place);
    take_branch(state, null, b);
    Ok(0)
}

// IF NUMERIC
pub fn if_numeric(
    store: &[u8],
    state: &mut [u64; STATE_SIZE],
    p: Part,
    b: Branch,
) -> Result<u32, Stop>
    requires memory_ready { MemoryReady store.now state.old }
    requires part_holds { PartHolds p }
    ensures { (input output : List ℕ) → Does (Program.if_test (Program.is_numeric (part_meaning p)) (branch_meaning b)) result
        (buffers store.now state.old output) (buffers store.now state.new output) input }
{
    let test = evaluator::is_numeric(Memory { store, state }, p);
    take_branch(state, test.value, b);
    Ok(test.notes)
}

// IF with two operands and a sign
pub fn if_compares(
    store: &[u8],
    state: &mut [u64; STATE_SIZE],
    x: If,
    b: Branch,
) -> Result<u32, Stop>
    requires memory_ready { MemoryReady store.now state.old }
    requires if_holds { IfHolds x }
    ensures { (input output : List ℕ) → Does (Program.if_test (if_meaning x) (branch_meaning b)) result
        (buffers store.now state.old output) (buffers store.now state.new output) input }
{
    let test = evaluator::compares(Memory { store, state }, x)?;
    take_branch(state, test.value, b);
    Ok(test.notes)
}

// READ
pub fn read(
    store: &mut [u8],
    state: &mut [u64; STATE_SIZE],
    input: &[u8],
    p: Part,
    b: Branch,
) -> Result<u32, Stop>
    requires memory_ready { MemoryReady store.old state.old }
    requires part_holds { PartHolds p × (get_or state.old 3 0 ≤ length input.now) }
    ensures { (output : List ℕ) → Does (Program.read (part_meaning p) (branch_meaning b)) result
        (buffers store.old state.old output) (buffers store.new state.new output) input.now }
{
    let record = effects::reading::read_record(store, state, input, p)?;
    take_branch(state, record.value, b);
    Ok(record.notes)
}

// WRITE and PRINT
pub fn write(
    table: &[u8],
    store: &[u8],
    state: &mut [u64; STATE_SIZE],
    output: &mut [u8],
    s: Stretch,
    out: &mut [u8],
) -> Result<u32, Stop>
    requires value_spellable { ValueSpellable table.now store.now state.old s }
    requires state_writable { StateWritable state.old output.old × (get_or state.old 1 0 + 1 < 2 ^ 64) }
    requires out_len { length out.old ≡ 1024 }
    ensures { (input : List ℕ) → Does (Program.write (elements_meaning table.now s)) result
        (buffers store.now state.old output.old)
        (buffers store.now state.new output.new) input }
{
    let notes = effects::valued::write_record(table, store, state, s, output, out)?;
    move_on(state);
    Ok(notes)
}

// EXECUTE: a return held to the step behind it
pub fn execute(state: &mut [u64; STATE_SIZE], k: usize) -> Result<u32, Stop>
    requires { (get_or state.old 2 0 < 16) × (get_or state.old 1 0 + 1 < 2 ^ 64) }
    ensures { (store input output : List ℕ) → Does (Program.execute k) result
        (buffers store state.old output) (buffers store state.new output) input }
{
    let next = state::next_step(state) + 1;
    state::push_return(state, next);
    state::go_to(state, k);
    Ok(0)
}

// RETURN and ENDROUTINE: to the step of the latest return
pub fn return_to(state: &mut [u64; STATE_SIZE]) -> Result<u32, Stop>
    requires { (0 < get_or state.old 2 0) × (get_or state.old 2 0 ≤ 16) }
    ensures { (store input output : List ℕ) → Does Program.return result
        (buffers store state.old output) (buffers store state.new output) input }
{
    let k = state::pop_return(state);
    state::go_to(state, k);
    Ok(0)
}
