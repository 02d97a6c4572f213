// The steps that labels and routines lead to, by the names known.
// Assumes nothing.
ghost use Rattle.std.specs.Prelude.{◌==◌, reverse, ◌≡◌};
ghost use Rattle.std.specs.List.{find};
ghost use Rattle.branch_parser.specs.Places.{step_to};
ghost use Rattle.symbols.specs.Entries.{name_of};

use crate::Target;
use symbols::known::{Known, Label, Routine};

// the label that has a name, if one has it
fn label_found(known: &Known, key: u64) -> Option<Label>
    ensures { result ≡ find (λ l. l.key == key) known.now.labels.items }
{
    known.labels.iter().find(|label| label.key == key).copied()
}

// the latest routine that has a name, if one has it
// kept: beside label_found: this one looks from the latest back, in a list of another type
fn routine_found(known: &Known, key: u64) -> Option<Routine>
    ensures { result ≡ find (λ r. r.key == key) (reverse known.now.routines.items) }
{
    known
        .routines
        .iter()
        .rev()
        .find(|routine| routine.key == key)
        .copied()
}

// the step that a name leads to, 0 for none
// kept: 0 and no Option, as in rows made with no steps: the first pass meets names of no step yet, and a row's bytes have a number in any case
pub fn target_step(known: &Known, key: u64, target: Target) -> usize
    ensures { result ≡ step_to known.now target (name_of key) }
{
    match target {
        Target::Label => label_found(known, key).map_or(0, |label| label.step),
        Target::Entry => routine_found(known, key).map_or(0, |routine| routine.entry),
        Target::Exit => routine_found(known, key).map_or(0, |routine| routine.exit),
    }
}
