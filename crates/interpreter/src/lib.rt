// A step and a run on the buffers: the calls `strigol_step` and `strigol_run`. What is refused is found first, the lowest number first.
// The two calls promise what calls/Promises says: an equation with step_call or run_call, what a refused or stopped step keeps, and demand 3.
#![tactic(auto)]

pub mod run;
pub mod scans;

ghost use Rattle.std.specs.Prelude.{List, ◌≡◌, ℕ, length, replicate};
ghost use Rattle.base.specs.Current.{current};
ghost use Rattle.calls.specs.Calls.{step_call, buffers};
ghost use Rattle.calls.specs.Promises.{StepPromise, step_back};
ghost use Rattle.encoding.specs.BufferLaws.{StoreGood};
ghost use Rattle.encoding.specs.Table.{Row};
ghost use Rattle.encoding.specs.TableReading.{statement_of_row};
ghost use Rattle.machine.specs.Step.{lacks_return};
ghost use Rattle.scanning.specs.Call.{no_answer};
ghost use Rattle.interpreter.specs.Clauses.{Given, Allowed, next_statement, WorksOn, Concludes, StepTaken, unfit_number};
ghost use Rattle.interpreter.specs.Endings.{refusal_number, checked_number};

use base::{LONGEST, RETURNS};
use decoder::Statement;
use encoding::{STATE_SIZE, TABLE_SIZE, step_kinds};
use scan_statement::VALUES_SIZE;
use scanning::{ANSWER_SIZE, NOTES_AT};
use values::Stop;

// what turns a step or a run down
#[derive(Clone, Copy, PartialEq, Eq)]
pub enum Refusal {
    ShortTable = 2,
    BadTable = 13,
    BadStore = 14,
    BadState = 15,
    Ended = 16,
}

impl Refusal {
    // its number in an answer
    pub fn number(self) -> u32
        ensures { result ≡ refusal_number self }
    {
        self as u32
    }
}

// why a step isn't made: it is turned down, or stopped
#[derive(Clone, Copy, PartialEq, Eq)]
pub enum Halt {
    Refused(Refusal),
    Stopped(Stop),
}

// whether a step of this kind lacks the return that it goes to, or room for the one that it holds
// kept: by the kind's number, read before the statement: handed on from here, the statement would be a ninth parameter of execute_statement
fn lacks_return(kind: u8, held: usize) -> bool
    ensures { (t rs : List ℕ) (row : Row) → row.kind ≡ kind → length rs ≡ held → result ≡ lacks_return (statement_of_row t row) rs }
{
    match kind {
        step_kinds::EXECUTE => RETURNS <= held,
        step_kinds::RETURN => held == 0,
        _ => false,
    }
}

// carries out the statement of the next step; a string's value is kept in front of values on the way, and the answer, which must say that
// nothing was scanned, gets what a scan found
// kept: one match with an arm for each kind: the arms lend different buffers, all of which each closure of a table would have to take
// kept: the buffers come one by one, here, in run and in scans: C lends all but values and kept so, and a struct of `&mut` takes for each field
// a clause more in every contract, that it still holds that one
fn execute_statement(
    table: &[u8],
    store: &mut [u8],
    state: &mut [u64; STATE_SIZE],
    input: &[u8],
    output: &mut [u8],
    values: &mut [u8; VALUES_SIZE],
    kept: &mut [u8],
    answer: &mut [u32; ANSWER_SIZE],
) -> Result<u32, Stop>
    requires allowed { Allowed table.now input.now (buffers store.old state.old output.old) }
    requires answer_value { answer.old ≡ no_answer }
    requires kept_good { StoreGood kept.old }
    ensures works_on { WorksOn result input.now (buffers store.old state.old output.old)
        (buffers store.new state.new output.new) (next_statement table.now state.old)
        answer.new }
    ensures kept_stays { StoreGood kept.new }
{
    match decoder::statement_at(table, state::next_step(state)) {
        Statement::SetNumber(place, s) => execution::set_number(table, store, state, place, s),
        Statement::SetString(p, s) => execution::set_string(
            table,
            store,
            state,
            p,
            s,
            &mut values[..LONGEST],
        ),
        Statement::Goto(to) => execution::go_to(state, to),
        Statement::Finish => execution::finish(state),
        Statement::IfNull(place, b) => execution::if_null(store, state, place, b),
        Statement::IfNumeric(p, b) => execution::if_numeric(store, state, p, b),
        Statement::If(operands, b) => execution::if_compares(store, state, operands, b),
        Statement::Scan(s) => scans::scan(table, store, state, s, values, kept, answer),
        Statement::Read(p, b) => execution::read(store, state, input, p, b),
        Statement::Write(s) => execution::write(
            table,
            store,
            state,
            output,
            s,
            &mut values[..LONGEST],
        ),
        Statement::Execute(to) => execution::execute(state, to),
        Statement::Return => execution::return_to(state),
    }
}

// Concludes a statement's work: where it is done the answer gets its notes, where it is stopped the state is marked so.
fn conclude(
    did: Result<u32, Stop>,
    state: &mut [u64; STATE_SIZE],
    answer: &mut [u32; ANSWER_SIZE],
) -> Result<u32, Halt>
    ensures { Concludes did result state.old state.new answer.old answer.new }
{
    match did {
        Ok(notes) => {
            answer[NOTES_AT] = notes;
            Ok(notes)
        }
        Err(stop) => {
            *answer = [0u32; ANSWER_SIZE];
            state::stop(state);
            Err(Halt::Stopped(stop))
        }
    }
}

// A step on buffers that nothing but the machine itself can turn down: its notes.
pub fn step_on(
    table: &[u8],
    store: &mut [u8],
    state: &mut [u64; STATE_SIZE],
    input: &[u8],
    output: &mut [u8],
    values: &mut [u8; VALUES_SIZE],
    kept: &mut [u8],
    answer: &mut [u32; ANSWER_SIZE],
) -> Result<u32, Halt>
    requires given { Given table.now input.now (buffers store.old state.old output.old) }
    requires kept_good { StoreGood kept.old }
    ensures step_taken { StepTaken
        (step_call current table.now input.now (buffers store.old state.old output.old))
        result answer.new (buffers store.new state.new output.new) }
    ensures kept_stays { StoreGood kept.new }
{
    *answer = [0u32; ANSWER_SIZE];
    if lacks_return(
        decoder::kind_at(table, state::next_step(state)),
        state::returns_held(state),
    ) {
        return Err(Halt::Refused(Refusal::BadState));
    }
    if !state::is_running(state) {
        return Err(Halt::Refused(Refusal::Ended));
    }
    let did = execute_statement(table, store, state, input, output, values, kept, answer);
    conclude(did, state, answer)
}

// turns a step down: no split, no trials, no notes
fn turn_down(refusal: Refusal, answer: &mut [u32; ANSWER_SIZE]) -> u32
    ensures { (result ≡ refusal_number refusal) × (answer.new ≡ replicate 24 0) }
{
    *answer = [0u32; ANSWER_SIZE];
    refusal.number()
}

// Whether buffers may be given to a step, or why not: of several reasons the one of the lowest number.
pub fn check_fit(
    table: &[u8],
    store: &[u8],
    state: &[u64; STATE_SIZE],
    input: usize,
    output: usize,
) -> Result<(), Refusal>
    ensures { checked_number result ≡ unfit_number table.now store.now state.now input output }
{
    if table.len() < TABLE_SIZE {
        return Err(Refusal::ShortTable);
    }
    if !verifier::keeps(table) {
        return Err(Refusal::BadTable);
    }
    if !store::keeps(store) {
        return Err(Refusal::BadStore);
    }
    let counts = decoder::counts_of(table);
    if !state::keeps(state, counts.steps, input, output) {
        return Err(Refusal::BadState);
    }
    Ok(())
}

// The step call: a run of one step.
pub fn strigol_step(
    table: &[u8],
    store: &mut [u8],
    state: &mut [u64; STATE_SIZE],
    input: &[u8],
    output: &mut [u8],
    answer: &mut [u32; ANSWER_SIZE],
) -> u32
    ensures { StepPromise current table.now input.now (buffers store.old state.old output.old)
        (step_back result answer.new (buffers store.new state.new output.new)) }
{
    match check_fit(table, store, state, input.len(), output.len()) {
        Ok(()) => run::repeat(table, store, state, input, output, 1, answer).number(),
        Err(refusal) => turn_down(refusal, answer),
    }
}
