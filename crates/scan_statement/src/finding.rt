// The scan between a pattern's values and its replacement: the scan, the fillers made null, the pieces named.
// Each contract is an equation with the definitions of the crate machine.
// kept: the scan comes before the fillers are null, which nobody can tell, since none is the string searched: so it is searched where it lies
ghost use Rattle.encoding.specs.Meaning.{direction_meaning};
ghost use Rattle.effects.specs.References.{turned_reference};
ghost use Rattle.scan_statement.specs.Searches.{AnswerNameable, AnswerNamed, SpanSearchable, SplitSearched};

use base::{LONGEST, ROW};
use decoder::{Scan, Stretch};
use effects::Span;
use effects::fillers::{name_fillers, null_fillers};
use effects::reference::turn_reference;
use encoding::cells::Direction;
use scanning::{ANSWER_SIZE, FOUND_AT};

// Once the scan's answer is known: makes the fillers null, and names the pieces of its split. Whether there is one.
// kept: the answer says so, as the scan leaves it there (C interface)
fn name_found(
    table: &[u8],
    store: &mut [u8],
    pattern: Stretch,
    at: Span,
    d: Direction,
    turned: &[u8],
    names: &[u8; ROW],
    answer: &[u32; ANSWER_SIZE],
) -> bool
    requires { AnswerNameable table.now store.old d at pattern turned.now names.now answer.now }
    ensures { AnswerNamed result table.now store.old store.new d at pattern names.now answer.now }
{
    null_fillers(table, store, pattern);
    if answer[FOUND_AT] == 0 {
        return false;
    }
    name_fillers(store, at, d, turned, names, answer, pattern.count);
    true
}

// Whether the pattern of these rows fits the bytes of a span. The fillers are null, but for those that name a piece. Only a BACKSCAN copies the
// bytes, to turn them round.
// kept: rows and names come apart: the scan reads the rows alone, as its call has them (C interface), and name_fillers the names alone
pub fn find_split(
    table: &[u8],
    store: &mut [u8],
    s: Scan,
    at: Span,
    values: &[u8],
    rows: &[u8],
    names: &[u8; ROW],
    answer: &mut [u32; ANSWER_SIZE],
) -> bool
    requires { SpanSearchable table.now store.old s.direction at s.pattern values.now rows.now names.now }
    ensures { SplitSearched result table.now store.old store.new s.pattern
        (turned_reference store.old (direction_meaning s.direction) at) values.now rows.now names.now answer.new }
{
    let d = s.direction;
    let pattern = s.pattern;
    let count = pattern.count;
    match d {
        Direction::Forward => {
            let string = store::string(store, at.place);
            scan::scan_into(&string[at.from..at.to], values, rows, count, answer);
            name_found(table, store, pattern, at, d, &[], names, answer)
        }
        Direction::Backward => {
            let mut turned = [0u8; LONGEST];
            turn_reference(store, at, &mut turned);
            let reference = &turned[..at.to - at.from];
            scan::scan_into(reference, values, rows, count, answer);
            name_found(table, store, pattern, at, d, reference, names, answer)
        }
    }
}
