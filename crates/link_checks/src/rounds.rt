// Going on from the places that are executed to those that these execute, round by round.
// Assumes nothing.
ghost use Rattle.std.specs.Prelude.{◌≡◌, ◌<◌, ℕ};
ghost use Rattle.link_checks.specs.Pairs.{mark_at, pair_in};
ghost use Rattle.link_checks.specs.Rounds.{go_on, gone_on};

use crate::executed::PLACES;
use std::array;

// whether a place is marked, or a marked one executes it
fn is_next(marks: &[bool; PLACES], pairs: &[[bool; PLACES]; PLACES], j: usize) -> bool
    requires { j < PLACES }
    ensures { result ≡ go_on (pair_in pairs.now) PLACES (mark_at marks.now) j }
{
    marks[j]
        || marks
            .iter()
            .zip(pairs)
            .any(|(marked, row)| *marked && row[j])
}

// the marks behind one round more
fn next_marks(marks: &[bool; PLACES], pairs: &[[bool; PLACES]; PLACES]) -> [bool; PLACES]
    ensures { (j : ℕ) → j < PLACES → mark_at result j ≡ go_on (pair_in pairs.now) PLACES (mark_at marks.now) j }
{
    array::from_fn(|j| is_next(marks, pairs, j))
}

// whether place i is executed by those that it executes, in so many rounds: as many as there are routines are enough
// kept: rounds as many as routines, which 12's definition has: PLACES rounds would be 17 times the work for a deck of one routine
pub fn comes_back(pairs: &[[bool; PLACES]; PLACES], rounds: usize, i: usize) -> bool
    requires { i < PLACES }
    ensures { result ≡ gone_on rounds (pair_in pairs.now) PLACES (pair_in pairs.now i) i }
{
    let mut marks = pairs[i];
    for _round in 0..rounds {
        marks = next_marks(&marks, pairs);
    }
    marks[i]
}
