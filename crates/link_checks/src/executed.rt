// Which routine executes which, by their places: place i executes place j where mark j of row i is set.
// Assumes nothing.
ghost use Rattle.std.specs.Prelude.{◌≡◌, ◌||◌, ℕ};
ghost use Rattle.link_checks.specs.Held.{Closable};
ghost use Rattle.link_checks.specs.Pairs.{mark_at, pair_in, routine_has_key, by_use, executed_in};

use symbols::known::{Known, LISTED_ROUTINES, Symbols};
use symbols::tags::Purpose;

// as many places as routines are listed
pub const PLACES: usize = LISTED_ROUTINES;

// notes in the row of a place that it executes each place with a key
// kept: by place, here and below: iter_mut under an adapter leaves nothing known of what is written (the kit's guide to its library)
fn note_row(known: &Known, row: &mut [bool; PLACES], key: u64)
    ensures { (j : ℕ) → mark_at row.new j ≡ (mark_at row.old j || routine_has_key known.now key j) }
{
    for (j, routine) in known.routines.iter().enumerate() {
        row[j] |= routine.key == key;
    }
}

// notes a use of a routine: each place with the key of its scope executes each place with its key
fn note_use(known: &Known, pairs: &mut [[bool; PLACES]; PLACES], scope: u64, key: u64)
    ensures { (i j : ℕ) → pair_in pairs.new i j ≡ (pair_in pairs.old i j || by_use known.now scope key i j) }
{
    for (i, routine) in known.routines.iter().enumerate() {
        if routine.key == scope {
            note_row(known, &mut pairs[i], key);
        }
    }
}

// the pairs of all uses of routines
pub fn executed_pairs(symbols: &Symbols) -> [[bool; PLACES]; PLACES]
    requires { Closable symbols.now }
    ensures { (i j : ℕ) → pair_in result i j ≡ executed_in symbols.now i j }
{
    let mut pairs = [[false; PLACES]; PLACES];
    let uses = &symbols.uses;
    let count = uses.count;
    let columns = uses.keys[..count]
        .iter()
        .zip(&uses.scopes[..count])
        .zip(&uses.purposes[..count]);
    for ((key, scope), purpose) in columns {
        if *purpose == Purpose::Routine {
            note_use(&symbols.known, &mut pairs, *scope, *key);
        }
    }
    pairs
}
