// The replacement of a scan: its value put where the pieces lay, turned round in a BACKSCAN as the reference is turned back.
// Each contract is an equation with the definitions of the crate machine.
ghost use Rattle.std.specs.Prelude.{reverse, ◌≡◌, length};
ghost use Rattle.syntax.specs.Program.{backward};
ghost use Rattle.encoding.specs.Meaning.{direction_meaning};
ghost use Rattle.effects.specs.Replacing.{stored_turned};
ghost use Rattle.effects.specs.Valued.{Between, ValueSpellable, ValueStored};

use crate::valued::set_value;
use crate::{Span, set_between};
use base::LONGEST;
use decoder::Stretch;
use encoding::STATE_SIZE;
use encoding::cells::Direction;
use evaluator::Memory;
use values::Stop;

// a string expression's value, turned round, takes the place of the bytes of a span
fn set_turned(
    table: &[u8],
    store: &mut [u8],
    state: &[u64; STATE_SIZE],
    at: Span,
    s: Stretch,
    out: &mut [u8],
) -> Result<u32, Stop>
    requires value_spellable { ValueSpellable table.now store.old state.now s }
    requires between { Between store.old at.place at.from at.to }
    requires out_len { length out.old ≡ 1024 }
    ensures { ValueStored result store.old store.new state.now
        (stored_turned table.now store.old state.now backward at.place at.from at.to s) }
{
    let length = evaluator::string_value(table, Memory { store, state }, s, out)?;
    if LONGEST < length.value {
        return Err(Stop::TooLong);
    }
    out[..length.value].reverse();
    set_between(store, at, out, length)
}

// the value of a scan's replacement takes the place of the bytes of a span
pub fn replace_found(
    table: &[u8],
    store: &mut [u8],
    state: &[u64; STATE_SIZE],
    d: Direction,
    at: Span,
    s: Stretch,
    out: &mut [u8],
) -> Result<u32, Stop>
    requires value_spellable { ValueSpellable table.now store.old state.now s }
    requires between { Between store.old at.place at.from at.to }
    requires out_len { length out.old ≡ 1024 }
    ensures { ValueStored result store.old store.new state.now
        (stored_turned table.now store.old state.now (direction_meaning d) at.place at.from at.to s) }
{
    match d {
        Direction::Forward => set_value(table, store, state, at, s, out),
        Direction::Backward => set_turned(table, store, state, at, s, out),
    }
}
