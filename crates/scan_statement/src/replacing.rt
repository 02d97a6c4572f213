// A scan's replacement, where the pieces of its split lay, and the fillers kept for one that stops.
// Each contract is an equation with the definitions of the crate machine.
ghost use Rattle.std.specs.Prelude.{◌≡◌, ◌+◌, ◌-◌, ◌≤◌, length};
ghost use Rattle.base.specs.Lists.{total};
ghost use Rattle.encoding.specs.Meaning.{direction_meaning};
ghost use Rattle.effects.specs.Fillers.{Copying, lengths_in};
ghost use Rattle.effects.specs.ReplacingLaws.{found_from, found_to};
ghost use Rattle.effects.specs.Valued.{ValueStored};
ghost use Rattle.scan_statement.specs.Stages.{LengthsCounted, Replaceable, Saved, replaced_pieces};

use decoder::Scan;
use effects::Span;
use effects::fillers::copy_fillers;
use effects::replacing::replace_found;
use encoding::STATE_SIZE;
use encoding::cells::Direction;
use scanning::{ANSWER_SIZE, LENGTHS_AT, START_AT};
use values::Stop;

// how long the pieces of a split are together
// kept: the pattern's count stands beside the answer, which as the scan call has it (C interface) says none
fn pieces_length(answer: &[u32; ANSWER_SIZE], count: usize) -> usize
    requires { LengthsCounted answer.now count }
    ensures { result ≡ total (λ l. l) (lengths_in answer.now count) }
{
    let sum: u32 = answer[LENGTHS_AT..LENGTHS_AT + count].iter().sum();
    sum as usize
}

// Where n bytes from start on of the reference, which is turned round in a BACKSCAN, lie in the string.
fn found_from(d: Direction, at: Span, start: usize, n: usize) -> usize
    requires from_le_to { at.from ≤ at.to }
    requires n_bound { start + n ≤ at.to - at.from }
    ensures { (result ≡ found_from (direction_meaning d) at.from (at.to - at.from) start n)
        × (result + n ≡ found_to (direction_meaning d) at.from (at.to - at.from) start n) × (result + n ≤ at.to) }
{
    match d {
        Direction::Forward => at.from + start,
        Direction::Backward => at.to - (start + n),
    }
}

// The value of the replacement, if there is one, takes the place of the pieces of a split.
pub fn replace_pieces(
    table: &[u8],
    store: &mut [u8],
    state: &[u64; STATE_SIZE],
    s: Scan,
    at: Span,
    answer: &[u32; ANSWER_SIZE],
    out: &mut [u8],
) -> Result<u32, Stop>
    requires replaceable { Replaceable table.now store.old state.now s at answer.now }
    requires out_len { length out.old ≡ 1024 }
    ensures { ValueStored result store.old store.new state.now
        (replaced_pieces table.now store.old state.now s at answer.now) }
{
    match s.replacement {
        None => Ok(0),
        Some(by) => {
            let d = s.direction;
            let n = pieces_length(answer, s.pattern.count);
            let from = found_from(d, at, answer[START_AT] as usize, n);
            let found = Span {
                from,
                to: from + n,
                ..at
            };
            replace_found(table, store, state, d, found, by, out)
        }
    }
}

// Keeps the fillers of a scan that has a replacement.
pub fn keep_fillers(table: &[u8], store: &[u8], kept: &mut [u8], s: Scan)
    requires { Copying table.now store.now kept.old s.pattern }
    ensures { Saved s.replacement table.now s.pattern store.now kept.old kept.new }
{
    if s.replacement.is_some() {
        copy_fillers(table, store, kept, s.pattern);
    }
}
