// The labels declared, one more than 10 allows, each with the step that comes next and the routine it stands in.
// Assumes nothing.
ghost use Rattle.std.specs.Prelude.{◌≤◌};
ghost use Rattle.arrayvec.specs.ArrayVec.{array_vec_len};
ghost use Rattle.symbols.specs.Environment.{most_labels};
ghost use Rattle.name_checks.specs.Shown.{entries_in};
ghost use Rattle.statement_checks.specs.Labels.{Labelled};

use crate::listing::note;
use arrayvec::ArrayVec;
use name_checks::entries::Entries;
use symbols::known::{LISTED_LABELS, Label};
use symbols::tags::Tag;

// notes the labels that a statement declares
pub fn list_labels(
    labels: &mut ArrayVec<Label, LISTED_LABELS>,
    entries: Entries,
    step: usize,
    scope: u64,
)
    requires { array_vec_len labels.old ≤ most_labels }
    ensures { Labelled labels.old.items step scope (entries_in entries.entry) labels.new.items }
{
    for (key, tag) in entries.keys.iter().zip(entries.tags) {
        if *tag == Tag::LabelDeclared {
            let key = *key;
            note(labels, Label { key, step, scope });
        }
    }
}
