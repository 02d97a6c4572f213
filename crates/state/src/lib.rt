// The state's 64 numbers: whether they are in range, what they say, the writes of a step, and the state before the first step.
// Each contract is an equation with the definitions of the crates encoding and calls, or with the numbers before, one of them set.
// kept: the state is the caller's array, by the C interface; so these are functions on it and not methods of a struct
#![tactic(auto)]

ghost use Rattle.std.specs.Prelude.{◌≡◌, ◌+◌, ◌-◌, ◌^◌, ◌<◌, ◌≤◌, eqb, ltb, get_or, set};
ghost use Rattle.base.specs.Current.{current};
ghost use Rattle.base.specs.Lists.{all};
ghost use Rattle.encoding.specs.Buffers.{status_of, first_state, returns_in, numbers_in, state_keeps};
ghost use Rattle.encoding.specs.Numerals.{biased, unbiased};
ghost use Rattle.calls.specs.Promises.{StartPromise, start_back};
ghost use Rattle.numbers.specs.Numbers.{IntInRange};
ghost use Rattle.machine.specs.State.{is_running};
ghost use Rattle.values.specs.Numbers.{is_in_range};
ghost use Rattle.state.specs.Clauses.{Popped};

use encoding::{
    BIAS, FINISHED, HELD_AT, NEXT_AT, NUMBERS_AT, READ_AT, RETURNS_AT, RUNNING, STATE_SIZE,
    STATUS_AT, STOPPED, WRITTEN_AT,
};
use numbers::{Int, LIMIT};

// where the numbers end; what stands behind them doesn't count
const BEHIND: usize = NUMBERS_AT + base::NUMBERS;

// Whether the returns held are steps of a program with so many.
fn returns_keep(state: &[u64; STATE_SIZE], steps: usize) -> bool
    requires { get_or state.now 2 0 ≤ 16 }
    ensures { result ≡ all (λ k. ltb k steps) (returns_in state.now) }
{
    let end = RETURNS_AT + (state[HELD_AT] as usize);
    state[RETURNS_AT..end].iter().all(|&k| k < steps as u64)
}

// Whether a word keeps a number in range.
// kept: with abs_diff(BIAS) the test of a state takes 1.5 times as long
fn keeps_number(n: u64) -> bool
    ensures { result ≡ is_in_range current (unbiased n) }
{
    (BIAS - LIMIT..=BIAS + LIMIT).contains(&n)
}

// Whether the numbers are in range.
fn numbers_keep(state: &[u64; STATE_SIZE]) -> bool
    ensures { result ≡ all (is_in_range current) (numbers_in state.now) }
{
    state[NUMBERS_AT..BEHIND].iter().all(|&n| keeps_number(n))
}

// Whether a state is in range for a program of so many steps, and so many bytes of input and output.
#[tactic(auto, unfolding(encoding::specs::Buffers::state_keeps, machine::specs::Step::most_returns))]
pub fn keeps(state: &[u64; STATE_SIZE], steps: usize, input: usize, output: usize) -> bool
    ensures { result ≡ state_keeps current steps input output state.now }
{
    state[NEXT_AT] < steps as u64
        && state[HELD_AT] <= base::RETURNS as u64
        && returns_keep(state, steps)
        && numbers_keep(state)
        && state[READ_AT] <= input as u64
        && state[WRITTEN_AT] <= output as u64
}

// Whether the run goes on: it has neither finished nor stopped.
#[tactic(auto, using(crate::specs::Laws::running_number))]
pub fn is_running(state: &[u64; STATE_SIZE]) -> bool
    ensures { result ≡ is_running (status_of (get_or state.now 0 0)) }
{
    state[STATUS_AT] == RUNNING
}

// Whether the run has finished.
pub fn is_finished(state: &[u64; STATE_SIZE]) -> bool
    ensures { result ≡ eqb (get_or state.now 0 0) 1 }
{
    state[STATUS_AT] == FINISHED
}

// The step that comes next.
pub fn next_step(state: &[u64; STATE_SIZE]) -> usize
    ensures { result ≡ get_or state.now 1 0 }
{
    state[NEXT_AT] as usize
}

// How many returns are held.
pub fn returns_held(state: &[u64; STATE_SIZE]) -> usize
    ensures { result ≡ get_or state.now 2 0 }
{
    state[HELD_AT] as usize
}

// Moves on to a step.
pub fn go_to(state: &mut [u64; STATE_SIZE], k: usize)
    ensures { state.new ≡ set state.old 1 k }
{
    state[NEXT_AT] = k as u64;
}

// Marks the run finished.
pub fn finish(state: &mut [u64; STATE_SIZE])
    ensures { state.new ≡ set state.old 0 1 }
{
    state[STATUS_AT] = FINISHED;
}

// Marks the run stopped.
pub fn stop(state: &mut [u64; STATE_SIZE])
    ensures { state.new ≡ set state.old 0 2 }
{
    state[STATUS_AT] = STOPPED;
}

// Sets the number with this place.
pub fn set_number(state: &mut [u64; STATE_SIZE], place: usize, z: Int)
    requires place_bound { place < 32 }
    requires int_in_range { IntInRange z }
    ensures { state.new ≡ set state.old (21 + place) (biased z.value) }
{
    state[NUMBERS_AT + place] = numbers::biased(z);
}

// The number with this place.
pub fn number(state: &[u64; STATE_SIZE], place: usize) -> Int
    requires { (place < 32) × (get_or state.now (21 + place) 0 < 2 ^ 48) }
    ensures { result.value ≡ unbiased (get_or state.now (21 + place) 0) }
{
    numbers::unbiased(state[NUMBERS_AT + place])
}

// Holds a return to a step.
pub fn push_return(state: &mut [u64; STATE_SIZE], k: usize)
    requires { get_or state.old 2 0 < 16 }
    ensures { state.new
        ≡ set (set state.old (5 + get_or state.old 2 0) k) 2 (get_or state.old 2 0 + 1) }
{
    let held = state[HELD_AT];
    state[RETURNS_AT + (held as usize)] = k as u64;
    state[HELD_AT] = held + 1;
}

// Lets the latest return go and gives its step.
pub fn pop_return(state: &mut [u64; STATE_SIZE]) -> usize
    requires { (0 < get_or state.old 2 0) × (get_or state.old 2 0 ≤ 16) }
    ensures { Popped state.old result state.new }
{
    let held = state[HELD_AT];
    let left = held - 1;
    state[HELD_AT] = left;
    state[RETURNS_AT + (left as usize)] as usize
}

// Makes the state before the first step: zeros, and 32 numbers that are 0.
pub fn start(state: &mut [u64; STATE_SIZE])
    ensures { state.new ≡ first_state }
{
    *state = [0u64; STATE_SIZE];
    state[NUMBERS_AT..BEHIND].fill(BIAS);
}

// The starting call: the state before the first step, and the store zeroed; 14 if the store is too small, which then stays.
// kept: 14 is bare: it is the one number that this call turns down by, by document 01; where a step has it, it is interpreter's BadStore
pub fn strigol_start(store: &mut [u8], state: &mut [u64; STATE_SIZE]) -> u32
    ensures { StartPromise store.old (start_back result store.new state.new) }
{
    start(state);
    match store::start_store(store) {
        Some(()) => 0,
        None => 14,
    }
}
