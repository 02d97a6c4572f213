// A whole run: a deck and an input in, all that the program prints out.
// Assumes nothing.
#![tactic(auto)]

ghost use Rattle.std.specs.Prelude.{◌++◌, ◌≡◌, ◌+◌, ◌≤◌, length};
ghost use Rattle.calls.specs.Strigol.{outcome_word};
ghost use Rattle.interpreter.specs.Endings.{outcome_meaning};
ghost use Rattle.printing.specs.Printing.{Put, numbers_text};
ghost use Rattle.batch.specs.Printing.{longest_line, longest_word, BatchLent, Prints};

use deck_reader::strigol_read;
use encoding::{STATE_SIZE, STORE_SIZE, TABLE_SIZE, WRITTEN_AT};
use interpreter::run::{Outcome, run};
use printing::{LONGEST_NUMBERS, put, put_numbers};
use state::strigol_start;

// the bytes kept of a deck, one more than a deck may have, and of the input
pub const KEPT_DECK: usize = base::DECK + 1;

pub const KEPT_INPUT: usize = 32_768;

// the output and the steps lent to a run
const LENT_OUTPUT: usize = 16_384;

const MOST_STEPS: u32 = 1_000_000;

// the longest closing line: a word, and three numbers with a line end
const LONGEST_LINE: usize = 8 + LONGEST_NUMBERS;

// room for all that is printed
pub const PRINTED: usize = LENT_OUTPUT + LONGEST_LINE;

// document 01's word for an outcome
fn word(outcome: Outcome) -> &'static [u8]
    ensures { result.now ≡ outcome_word (outcome_meaning outcome) }
{
    match outcome {
        Outcome::Finished => b"FINISHED",
        Outcome::Stopped(_) => b"STOPPED",
        Outcome::Spent => b"SPENT",
        Outcome::Refused(_) => b"REFUSED",
    }
}

// a closing line: a word, and three numbers with a line end, from at on; where it ends
fn put_line(word: &[u8], number: u32, steps: u32, notes: u64, at: usize, out: &mut [u8]) -> usize
    requires { (length word.now ≤ longest_word) × (at + longest_line ≤ length out.old) }
    ensures { Put out.old out.new at (word.now ++ numbers_text number steps notes) result }
{
    let word_end = put(word, at, out);
    put_numbers(number as u64, steps as u64, notes, word_end, out)
}

// What `strigol` prints for a deck and an input, at the start of out; how many bytes that is.
pub fn run_deck(deck: &[u8], input: &[u8], out: &mut [u8]) -> usize
    requires { BatchLent deck.now input.now out.old }
    ensures { Prints deck.now input.now out.new result }
{
    let mut table = [0u8; TABLE_SIZE];
    let mut card: u32 = 0;
    // kept: C's call and its number: that a deck is too long is said there alone, so no refusal of deck_reader's read_deck has it
    let number = strigol_read(deck, &mut table, &mut card);
    if number != 0 {
        // in place of the steps stands the card
        return put_line(b"REFUSED", number, card, 0, 0, out);
    }
    let mut store = [0u8; STORE_SIZE];
    let mut state = [0u64; STATE_SIZE];
    strigol_start(&mut store, &mut state);
    let ran = run(
        &table,
        &mut store,
        &mut state,
        input,
        &mut out[..LENT_OUTPUT],
        MOST_STEPS,
    );
    put_line(
        word(ran.outcome),
        ran.number(),
        ran.steps,
        ran.notes,
        state[WRITTEN_AT] as usize,
        out,
    )
}
