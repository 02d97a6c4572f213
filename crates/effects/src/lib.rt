// What statements leave in the buffers once their values are known: a record read or written, a stretch of a string set.
// Each contract is an equation with the definitions of the crate machine. What stops a statement is found before anything is written.
// kept: store and state come apart, as valued.rt says, and the table, C's bytes read by place, stands beside both; where out keeps a value it is a
// slice of 1,024 bytes, as crate evaluator says
#![tactic(auto)]

pub mod fillers;
pub mod reading;
pub mod reference;
pub mod replacing;
pub mod valued;

ghost use Rattle.std.specs.Prelude.{List, ℕ, ◌≤◌, length};
ghost use Rattle.evaluator.specs.Memory.{memory_in, StateNumbered};
ghost use Rattle.machine.specs.Expressions.{length_in};
ghost use Rattle.decoder.specs.Holds.{LengthHolds};
ghost use Rattle.decoder.specs.Meaning.{length_meaning};
ghost use Rattle.effects.specs.Leaving.{Asks, Taking, RecordTaken, RecordPuts, Setting, Sets};

use base::LONGEST;
use decoder::Length;
use encoding::STATE_SIZE;
use values::{Noted, Stop};

// what taking a record comes to: the place behind it, None if none is taken, and how many of its bytes are dropped
#[derive(Clone, Copy)]
pub struct Taken {
    pub to: Option<usize>,
    pub dropped: usize,
}

// the bytes from..to of the string with this place
// kept: that it lies in its string (Between) is no ghost field: that is a fact of the store too
#[derive(Clone, Copy)]
pub struct Span {
    pub place: usize,
    pub from: usize,
    pub to: usize,
}

// How many bytes a length asks for; a negative one stops the step.
fn asked(state: &[u64; STATE_SIZE], n: Length) -> Result<usize, Stop>
    requires state_numbered { StateNumbered state.now }
    requires length_holds { LengthHolds n }
    ensures { (store : List ℕ) → Asks result (length_in (memory_in store state.now) (length_meaning n)) }
{
    numbers::natural(evaluator::length_value(state, n)).ok_or(Stop::NegativeLength)
}

// Takes the record at a place of the input into a string, its first 1,024 bytes or fewer if so few are asked for, and drops the others.
// If there is no record or none is asked for, nothing changes, and nothing is dropped.
pub fn take_record(store: &mut [u8], place: usize, input: &[u8], from: usize, most: usize) -> Taken
    requires { Taking store.old place input.now from }
    ensures { RecordTaken store.old store.new input.now place most from result.to result.dropped }
{
    let left = input.len() - from;
    if most == 0 || left == 0 {
        return Taken {
            to: None,
            dropped: 0,
        };
    }
    let room = most.min(LONGEST);
    let n = store::spans::next_record(input, from);
    let to = from + n.min(room);
    store::put(store, place, &input[from..to]);
    Taken {
        to: Some(from + (n + 1).min(left)),
        dropped: n.saturating_sub(room),
    }
}

// Puts a record and byte 10 behind the bytes of the output, and gives its new length; a null record puts nothing.
pub fn put_record(output: &mut [u8], at: usize, v: &[u8]) -> Result<usize, Stop>
    requires { at ≤ length output.old }
    ensures { RecordPuts result output.old output.new at v.now }
{
    let n = v.len();
    if n == 0 {
        return Ok(at);
    }
    if output.len() - at <= n {
        return Err(Stop::OutputFull);
    }
    Ok(store::spans::put_line(output, at, v))
}

// A value takes the place of the bytes of a span, with the notes that came with it. It has so many bytes; v has the first 1,024 of them.
// kept: v and length side by side, here and in valued: a value may be longer than its buffer; the step then stops, or cuts it
pub fn set_between(store: &mut [u8], at: Span, v: &[u8], length: Noted<usize>) -> Result<u32, Stop>
    requires { Setting store.old at.place at.from at.to v.now }
    ensures { Sets result store.old store.new at.place at.from at.to v.now length.value length.notes }
{
    let kept = store::string_length(store, at.place) - (at.to - at.from);
    if LONGEST - kept < length.value {
        return Err(Stop::TooLong);
    }
    store::replace(store, at.place, at.from, at.to, &v[..length.value]);
    Ok(length.notes)
}
