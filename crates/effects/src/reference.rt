// What a scan searches: where its bytes lie in a string, and a copy of them, turned round for a BACKSCAN.
// Each contract is an equation with the definitions of the crate machine.
ghost use Rattle.std.specs.Prelude.{◌≡◌, ◌≤◌};
ghost use Rattle.encoding.specs.BufferLaws.{StoreGood};
ghost use Rattle.encoding.specs.Splices.{splice};
ghost use Rattle.evaluator.specs.Meaning.{memory_meaning};
ghost use Rattle.machine.specs.Scanning.{searched_in};
ghost use Rattle.decoder.specs.Holds.{PartHolds};
ghost use Rattle.decoder.specs.Meaning.{part_meaning};
ghost use Rattle.encoding.specs.Meaning.{direction_meaning};
ghost use Rattle.effects.specs.References.{Refers, restricted_by, turned_reference};
ghost use Rattle.effects.specs.Valued.{Between};
ghost use Rattle.syntax.specs.Program.{backward};

use crate::{Span, asked};
use base::LONGEST;
use decoder::Part;
use encoding::cells::Direction;
use evaluator::Memory;
use values::Stop;

// the first or the last n of a string's bytes
fn restrict(d: Direction, place: usize, n: usize, length: usize) -> Span
    requires { n ≤ length }
    ensures { result ≡ restricted_by (direction_meaning d) place n length }
{
    match d {
        Direction::Forward => Span {
            place,
            from: 0,
            to: n,
        },
        Direction::Backward => Span {
            place,
            from: length - n,
            to: length,
        },
    }
}

// where the reference of a scan lies
pub fn reference_ends(memory: Memory, d: Direction, p: Part) -> Result<Span, Stop>
    requires { PartHolds p }
    ensures { Refers result memory.entry.store.now p
        (searched_in (memory_meaning memory.entry) (direction_meaning d) (part_meaning p)) }
{
    match p {
        Part::Whole(place) => {
            let length = store::string_length(memory.store, place);
            Ok(restrict(d, place, length, length))
        }
        Part::First(place, n) => {
            let most = asked(memory.state, n)?;
            let length = store::string_length(memory.store, place);
            Ok(restrict(d, place, most.min(length), length))
        }
    }
}

// copies the reference of a BACKSCAN to the front of a string's buffer, turned round
pub fn turn_reference(store: &[u8], at: Span, out: &mut [u8; LONGEST])
    requires store_good { StoreGood store.now }
    requires between { Between store.now at.place at.from at.to }
    ensures { out.new ≡ splice out.old 0 (turned_reference store.now backward at) }
{
    let string = store::string(store, at.place);
    store::spans::copy_turned(&string[at.from..at.to], out);
}
