// The labels and routines used, each with the routine it is used in.
// Assumes nothing.
ghost use Rattle.std.specs.Prelude.{[], ◌∷◌, ◌+◌, ◌≤◌, ◌<◌};
ghost use Rattle.symbols.specs.Clauses.{names_room};
ghost use Rattle.symbols.specs.Entries.{entry};
ghost use Rattle.name_checks.specs.Shown.{entry_count, entries_in};
ghost use Rattle.statement_checks.specs.Uses.{Used};

use name_checks::entries::Entries;
use symbols::known::Uses;
use symbols::tags::Tag;

// notes a name mentioned if it is a label or a routine used
fn note_use(uses: &mut Uses, key: u64, scope: u64, tag: Tag)
    requires { uses.old.count < names_room }
    ensures { Used uses.old scope (entry key tag ∷ []) uses.new }
{
    match tag {
        Tag::LabelUsed | Tag::RoutineUsed => uses.note(key, scope, tag.purpose()),
        _ => {}
    }
}

// notes the labels and routines that a statement uses
pub fn note_uses(uses: &mut Uses, scope: u64, entries: Entries)
    requires { uses.old.count + entry_count entries ≤ names_room }
    ensures { Used uses.old scope (entries_in entries.entry) uses.new }
{
    for (key, tag) in entries.keys.iter().zip(entries.tags) {
        note_use(uses, *key, scope, *tag);
    }
}
