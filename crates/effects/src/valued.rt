// The statements that value an expression and keep it: a number or a string set, a record written. What stops them changes nothing.
// Each contract is an equation with the definitions of the crate machine.
ghost use Rattle.std.specs.Prelude.{◌≡◌, ◌+◌, ◌<◌, ◌≤◌, length};
ghost use Rattle.base.specs.Current.{current};
ghost use Rattle.evaluator.specs.Memory.{memory_in};
ghost use Rattle.machine.specs.Expressions.{numeric_in};
ghost use Rattle.machine.specs.Step.{set_string_in};
ghost use Rattle.decoder.specs.Holds.{PartHolds};
ghost use Rattle.decoder.specs.Meaning.{items_meaning, elements_meaning, part_meaning};
ghost use Rattle.effects.specs.Valued.{Valuable, ValueSpellable, Assigns, Between, stored_between, ValueStored, Writing, tail_notes};
ghost use Rattle.effects.specs.Valued.{ValueRecorded, StateWritable, Writes};

use crate::reference::reference_ends;
use crate::{Span, put_record, set_between};
use base::LONGEST;
use decoder::{Part, Stretch};
use encoding::cells::Direction;
use encoding::{STATE_SIZE, WRITTEN_AT};
use evaluator::Memory;
use values::{Noted, Stop};

// kept: a statement writes the store or the state, so here and in execution they come apart; a Memory has them while values are found
// kept: table and s side by side: a struct of both with what holds of s as ghost field would be made anew for each stretch of a
// statement, and ask for the same fact there

// a numeric expression's value becomes the number of this place
pub fn assign(
    table: &[u8],
    store: &[u8],
    state: &mut [u64; STATE_SIZE],
    place: usize,
    s: Stretch,
) -> Result<u32, Stop>
    requires valuable { Valuable table.now store.now state.old s }
    requires place_bound { place < 32 }
    ensures { Assigns result state.old state.new place
        (numeric_in current (memory_in store.now state.old) (items_meaning table.now s)) }
{
    let number = evaluator::numeric_value(table, Memory { store, state }, s)?;
    state::set_number(state, place, number.value);
    Ok(number.notes)
}

// a string expression's value, kept in out, takes the place of the bytes of a span
pub fn set_value(
    table: &[u8],
    store: &mut [u8],
    state: &[u64; STATE_SIZE],
    at: Span,
    s: Stretch,
    out: &mut [u8],
) -> Result<u32, Stop>
    requires value_spellable { ValueSpellable table.now store.old state.now s }
    requires between { Between store.old at.place at.from at.to }
    requires out_len { length out.old ≡ 1024 }
    ensures { ValueStored result store.old store.new state.now
        (stored_between table.now store.old state.now at.place at.from at.to s) }
{
    let length = evaluator::string_value(table, Memory { store, state }, s, out)?;
    set_between(store, at, out, length)
}

// a string replacement
pub fn set_string(
    table: &[u8],
    store: &mut [u8],
    state: &[u64; STATE_SIZE],
    p: Part,
    s: Stretch,
    out: &mut [u8],
) -> Result<u32, Stop>
    requires value_spellable { ValueSpellable table.now store.old state.now s }
    requires part_holds { PartHolds p }
    requires out_len { length out.old ≡ 1024 }
    ensures { ValueStored result store.old store.new state.now
        (set_string_in current (memory_in store.old state.now) (part_meaning p) (elements_meaning table.now s)) }
{
    // a negative length: nothing is set, and one note is made
    let Ok(at) = reference_ends(Memory { store, state }, Direction::Forward, p) else {
        return Ok(1);
    };
    set_value(table, store, state, at, s, out)
}

// a note if a record to be put is so long that its tail is dropped
#[tactic(auto, unfolding(crate::specs::Valued::tail_notes))]
fn tail_notes(n: usize) -> u32
    ensures { (result ≡ tail_notes n) × (result ≤ 1) }
{
    u32::from(LONGEST < n)
}

// puts a record, of so many bytes of which v has the first 1,024, behind the output that the state knows of
fn write_value(
    state: &mut [u64; STATE_SIZE],
    output: &mut [u8],
    v: &[u8],
    length: Noted<usize>,
) -> Result<u32, Stop>
    requires { Writing state.old output.old v.now length.notes }
    ensures { ValueRecorded result state.old state.new output.old output.new v.now length.value length.notes }
{
    let kept = length.value.min(LONGEST);
    let to = put_record(output, state[WRITTEN_AT] as usize, &v[..kept])?;
    state[WRITTEN_AT] = to as u64;
    Ok(length.notes + tail_notes(length.value))
}

// WRITE and PRINT
pub fn write_record(
    table: &[u8],
    store: &[u8],
    state: &mut [u64; STATE_SIZE],
    s: Stretch,
    output: &mut [u8],
    out: &mut [u8],
) -> Result<u32, Stop>
    requires value_spellable { ValueSpellable table.now store.now state.old s }
    requires state_writable { StateWritable state.old output.old }
    requires out_len { length out.old ≡ 1024 }
    ensures { Writes result table.now store.now s state.old state.new output.old output.new }
{
    let length = evaluator::string_value(table, Memory { store, state }, s, out)?;
    write_value(state, output, out, length)
}
