// The names known, each once with its purpose, and how a statement's names are put behind them.
// Assumes nothing.
ghost use Rattle.std.specs.Prelude.{[], ◌∷◌, ◌+◌, ◌≤◌, ◌<◌, length};
ghost use Rattle.symbols.specs.Clauses.{names_room};
ghost use Rattle.name_checks.specs.Shown.{entries_in};
ghost use Rattle.name_checks.specs.Names.{key_mention, chosen_in, Enters};

use crate::entries::Entries;
use symbols::known::Names;
use symbols::place;
use symbols::tags::Purpose;
use validation::Refusal;

// puts a name behind those known if it is new; one of them may not have another purpose
fn enter_name(names: &mut Names, key: u64, purpose: Purpose) -> Result<(), Refusal>
    requires { names.old.count < names_room }
    ensures { Enters names.old (key_mention key purpose ∷ []) names.new result }
{
    let n = names.count;
    match place(&names.keys[..n], key) {
        None => {
            names.keys[n] = key;
            names.purposes[n] = purpose;
            names.count = n + 1;
            Ok(())
        }
        Some(i) => {
            if names.purposes[i] == purpose {
                Ok(())
            } else {
                Err(Refusal::NameClash)
            }
        }
    }
}

// puts the names declared, or those used, behind those known; one that clashes is told, and the others are put
// kept: goes on behind a clash, since it promises the names behind one too: with `?` it would promise less
// kept: declared is compared with what is_declared answers; an enum of the two would be turned back into that answer
pub fn enter_names(names: &mut Names, entries: Entries, declared: bool) -> Result<(), Refusal>
    requires { names.old.count + length (chosen_in declared (entries_in entries)) ≤ names_room }
    ensures { Enters names.old (chosen_in declared (entries_in entries.entry)) names.new result }
{
    let mut outcome = Ok(());
    for (key, tag) in entries.keys.iter().zip(entries.tags) {
        if tag.is_declared() == declared {
            outcome = outcome.and(enter_name(names, *key, tag.purpose()));
        }
    }
    outcome
}
