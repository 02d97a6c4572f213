// A run: the table and the store are looked at once, and then a step is repeated until one finishes, stops or is turned down.
ghost use Rattle.std.specs.Prelude.{◌≡◌, ◌+◌, ◌<◌, ◌^◌};
ghost use Rattle.base.specs.Current.{current};
ghost use Rattle.calls.specs.Calls.{run_call, step_call, outcome_number, buffers};
ghost use Rattle.calls.specs.Promises.{RunPromise, run_back};
ghost use Rattle.interpreter.specs.Clauses.{Given, StepAnswers, RunAnswers};
ghost use Rattle.interpreter.specs.Endings.{halted, outcome_meaning, ended_number, ran_numbers, ran_back};

use crate::{Halt, Refusal, check_fit, step_on};
use encoding::{STATE_SIZE, STORE_SIZE};
use scan_statement::VALUES_SIZE;
use scanning::ANSWER_SIZE;
use values::Stop;

// how a run ended: by itself, stopped, its steps spent, or turned down
#[derive(Clone, Copy, PartialEq, Eq)]
pub enum Outcome {
    Finished,
    Stopped(Stop),
    Spent,
    Refused(Refusal),
}

impl Outcome {
    // its number in a result
    #[tactic(auto, unfolding(calls::specs::Calls::outcome_number))]
    fn number(self) -> u64
        ensures { result ≡ outcome_number (outcome_meaning self) }
    {
        match self {
            Outcome::Finished => 0,
            Outcome::Stopped(_) => 1,
            Outcome::Spent => 2,
            Outcome::Refused(_) => 3,
        }
    }
}

// a run that was made: how it ended, the steps done and their notes
#[derive(Clone, Copy)]
pub struct Ran {
    pub outcome: Outcome,
    pub steps: u32,
    pub notes: u64,
}

impl Ran {
    // the number of what stopped it or turned it down, 0 where nothing did
    pub fn number(self) -> u32
        ensures { result ≡ ended_number self.outcome }
    {
        match self.outcome {
            Outcome::Finished | Outcome::Spent => 0,
            Outcome::Stopped(stop) => stop.number(),
            Outcome::Refused(refusal) => refusal.number(),
        }
    }

    // a run that a step ended: one that is stopped counts as done, one that is turned down doesn't
    fn halted(halt: Halt, done: u32, notes: u64) -> Ran
        requires { done + 1 < 2 ^ 32 }
        ensures { result ≡ halted halt done notes }
    {
        let (outcome, steps) = match halt {
            Halt::Stopped(stop) => (Outcome::Stopped(stop), done + 1),
            Halt::Refused(refusal) => (Outcome::Refused(refusal), done),
        };
        Ran {
            outcome,
            steps,
            notes,
        }
    }

    // the run call's result
    fn numbers(self) -> [u64; 4]
        ensures { result ≡ ran_numbers self }
    {
        [
            self.outcome.number(),
            self.number() as u64,
            self.steps as u64,
            self.notes,
        ]
    }
}

// So many steps on buffers that only the machine itself can turn down, unless one ends the run; the answer is that of the last.
pub fn repeat(
    table: &[u8],
    store: &mut [u8],
    state: &mut [u64; STATE_SIZE],
    input: &[u8],
    output: &mut [u8],
    count: u32,
    answer: &mut [u32; ANSWER_SIZE],
) -> Ran
    requires { Given table.now input.now (buffers store.old state.old output.old) }
    ensures run_answers { RunAnswers
        (run_call current table.now input.now count (buffers store.old state.old output.old))
        result (buffers store.new state.new output.new) }
    ensures step_answers { count ≡ 1 → StepAnswers
        (step_call current table.now input.now (buffers store.old state.old output.old))
        (ended_number result.outcome) answer.new (buffers store.new state.new output.new) }
{
    let mut values = [0u8; VALUES_SIZE];
    let mut kept = [0u8; STORE_SIZE];
    let mut notes: u64 = 0;
    for done in 0..count {
        let step = step_on(
            table,
            store,
            state,
            input,
            output,
            &mut values,
            &mut kept,
            answer,
        );
        match step {
            Ok(more) => notes += more as u64,
            Err(halt) => return Ran::halted(halt, done, notes),
        }
        if state::is_finished(state) {
            return Ran {
                outcome: Outcome::Finished,
                steps: done + 1,
                notes,
            };
        }
    }
    Ran {
        outcome: Outcome::Spent,
        steps: count,
        notes,
    }
}

// So many steps at most, on any buffers.
pub fn run(
    table: &[u8],
    store: &mut [u8],
    state: &mut [u64; STATE_SIZE],
    input: &[u8],
    output: &mut [u8],
    count: u32,
) -> Ran
    ensures { RunPromise current table.now input.now count (buffers store.old state.old output.old)
        (ran_back result (buffers store.new state.new output.new)) }
{
    if count == 0 {
        return Ran {
            outcome: Outcome::Spent,
            steps: 0,
            notes: 0,
        };
    }
    match check_fit(table, store, state, input.len(), output.len()) {
        Ok(()) => {
            let mut answer = [0u32; ANSWER_SIZE];
            repeat(table, store, state, input, output, count, &mut answer)
        }
        Err(refusal) => Ran {
            outcome: Outcome::Refused(refusal),
            steps: 0,
            notes: 0,
        },
    }
}

// The run call: so many steps at most. A run of more is a run again on what the last one left.
pub fn strigol_run(
    table: &[u8],
    store: &mut [u8],
    state: &mut [u64; STATE_SIZE],
    input: &[u8],
    output: &mut [u8],
    count: u32,
    res: &mut [u64; 4],
) -> u32
    ensures { RunPromise current table.now input.now count (buffers store.old state.old output.old)
        (run_back result res.new (buffers store.new state.new output.new)) }
{
    let ran = run(table, store, state, input, output, count);
    *res = ran.numbers();
    ran.number()
}
