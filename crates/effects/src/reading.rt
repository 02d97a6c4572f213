// READ: the next record of the input that the state knows of, into a string.
// Its contract is an equation with the definitions of the crate machine.
ghost use Rattle.std.specs.Prelude.{◌≡◌, ◌≤◌, length, get_or};
ghost use Rattle.evaluator.specs.Memory.{MemoryReady};
ghost use Rattle.decoder.specs.Holds.{PartHolds};
ghost use Rattle.decoder.specs.Meaning.{part_meaning};
ghost use Rattle.machine.specs.Step.{cut_notes};
ghost use Rattle.effects.specs.Reading.{Reading, NextRecord, RecordRead};

use crate::{asked, take_record};
use base::LONGEST;
use decoder::Part;
use encoding::{READ_AT, STATE_SIZE};
use values::{Noted, Stop};

// a note if bytes of a record are dropped
#[tactic(auto, unfolding(machine::specs::Step::cut_notes))]
fn cut_notes(dropped: usize) -> u32
    ensures { result ≡ cut_notes dropped }
{
    u32::from(dropped != 0)
}

// Takes the next record of the input that the state knows of, if there is one and one is asked for. Gives whether it did, with a note if the
// record was cut.
fn read_next(
    store: &mut [u8],
    state: &mut [u64; STATE_SIZE],
    input: &[u8],
    place: usize,
    most: usize,
) -> Noted<bool>
    requires { Reading store.old state.old input.now place }
    ensures { NextRecord result store.old store.new state.old state.new input.now place most }
{
    let record = take_record(store, place, input, state[READ_AT] as usize, most);
    let notes = cut_notes(record.dropped);
    let Some(to) = record.to else {
        return Noted {
            value: false,
            notes,
        };
    };
    state[READ_AT] = to as u64;
    Noted { value: true, notes }
}

// READ: whether a record was taken, with a note if it was cut
pub fn read_record(
    store: &mut [u8],
    state: &mut [u64; STATE_SIZE],
    input: &[u8],
    p: Part,
) -> Result<Noted<bool>, Stop>
    requires memory_ready { MemoryReady store.old state.old }
    requires part_holds { PartHolds p × (get_or state.old 3 0 ≤ length input.now) }
    ensures { RecordRead result store.old store.new state.old state.new input.now (part_meaning p) }
{
    match p {
        Part::Whole(place) => Ok(read_next(store, state, input, place, LONGEST)),
        Part::First(place, n) => {
            let most = asked(state, n)?;
            Ok(read_next(store, state, input, place, most))
        }
    }
}
