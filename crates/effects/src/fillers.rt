// The fillers of a scan: made null, named by the pieces found, and kept so that they can be put back where the statement stops.
// Each contract is an equation with the definitions of the crate machine.
ghost use Rattle.std.specs.Prelude.{List, ◌≡◌, ℕ, ◌+◌, ◌<◌, ◌≤◌, length, take, drop};
ghost use Rattle.encoding.specs.BufferLaws.{StoreGood};
ghost use Rattle.encoding.specs.Meaning.{direction_meaning};
ghost use Rattle.store.specs.Clauses.{string_of};
ghost use Rattle.decoder.specs.Meaning.{pattern_meaning};
ghost use Rattle.effects.specs.Fillers.{filler_of, renamed, Patterned, Nulled, PieceNameable, SpanNameable, PiecesNamed};
ghost use Rattle.effects.specs.Fillers.{Copying, Copied};
ghost use Rattle.effects.specs.References.{turned_reference};

use crate::Span;
use base::STRINGS;
use decoder::{PatternElement, Stretch};
use encoding::cells::Direction;
use scanning::{ANSWER_SIZE, LENGTHS_AT, START_AT};

// the place of a filler, or one behind those of all strings
// kept: 32 for none, in a scan's bytes of names too: the one test of set_named, name_piece and copy_named says both that a place is named and that a
// store has it. Beside an Option the test would stay: the element of any table is taken, and to ask for a place below 32 asks more of callers
fn filler_of(x: PatternElement) -> usize
    ensures { (t : List ℕ) → result ≡ filler_of (pattern_meaning t x) }
{
    match x {
        PatternElement::Value(_) => STRINGS,
        PatternElement::Free(s) | PatternElement::Fixed(s, _) => s,
    }
}

// Sets the string of this place, if it is one.
#[tactic(auto, unfolding(crate::specs::Fillers::renamed))]
fn set_named(store: &mut [u8], place: usize, v: &[u8])
    requires store_good { StoreGood store.old }
    requires v_len_bound { length v.now ≤ 1024 }
    ensures { store.new ≡ renamed store.old place v.now }
{
    if place < STRINGS {
        store::put(store, place, v);
    }
}

// Makes the fillers of a pattern null.
// kept: by index, here and in copy_fillers: decoder reads an element by its place among all of them. One function for both would take a closure
// that writes to a store, and its contract would say what any closure leaves
pub fn null_fillers(table: &[u8], store: &mut [u8], pattern: Stretch)
    requires { Patterned table.now store.old pattern }
    ensures { Nulled table.now pattern store.old store.new }
{
    for at in pattern.from..pattern.from + pattern.count {
        let s = filler_of(decoder::pattern_at(table, at));
        set_named(store, s, &[]);
    }
}

// Names a piece: n bytes from a place on of what is searched become the string of this place, if it is one. What is searched are the bytes of a
// span, of a BACKSCAN their copy turned round.
#[tactic(auto, unfolding(crate::specs::Fillers::renamed))]
fn name_piece(
    store: &mut [u8],
    place: usize,
    at: Span,
    d: Direction,
    turned: &[u8],
    start: usize,
    n: usize,
)
    requires { PieceNameable store.old (direction_meaning d) at turned.now start n }
    ensures { store.new
        ≡ renamed store.old place (take n (drop start (turned_reference store.old (direction_meaning d) at))) }
{
    if place < STRINGS {
        match d {
            Direction::Forward => store::put_piece(store, place, at.place, at.from + start, n),
            Direction::Backward => store::put(store, place, &turned[start..start + n]),
        }
    }
}

// Names the pieces of a split of what is searched, left to right: names has the place that each is to name, or none; the answer has the split.
// kept: the count of the pieces stands beside both: names and the answer are as long for every pattern
// kept: the span and the copy side by side: a SCAN makes no copy, and one struct of either would be an enum with a reference
pub fn name_fillers(
    store: &mut [u8],
    at: Span,
    d: Direction,
    turned: &[u8],
    names: &[u8],
    answer: &[u32; ANSWER_SIZE],
    count: usize,
)
    requires { SpanNameable store.old (direction_meaning d) at turned.now names.now answer.now count }
    ensures { PiecesNamed store.old store.new (turned_reference store.old (direction_meaning d) at) names.now
        answer.now count }
{
    let mut start = answer[START_AT] as usize;
    for (name, length) in names[..count].iter().zip(&answer[LENGTHS_AT..]) {
        let n = *length as usize;
        name_piece(store, *name as usize, at, d, turned, start, n);
        start += n;
    }
}

// Copies the string of this place, if it is one, to another store.
#[tactic(auto, unfolding(crate::specs::Fillers::renamed))]
fn copy_named(from: &[u8], to: &mut [u8], place: usize)
    requires { StoreGood from.now × StoreGood to.old }
    ensures { to.new ≡ renamed to.old place (string_of from.now place) }
{
    if place < STRINGS {
        store::put(to, place, store::string(from, place));
    }
}

// Copies the fillers of a pattern to another store: to keep them there, and to put them back where the statement stops.
pub fn copy_fillers(table: &[u8], from: &[u8], to: &mut [u8], pattern: Stretch)
    requires { Copying table.now from.now to.old pattern }
    ensures { Copied table.now pattern from.now to.old to.new }
{
    for at in pattern.from..pattern.from + pattern.count {
        let s = filler_of(decoder::pattern_at(table, at));
        copy_named(from, to, s);
    }
}
