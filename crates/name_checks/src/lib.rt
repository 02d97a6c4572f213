// 6, 7 and 8 of a statement: the names it mentions, beside those known before.
// Assumes nothing.
// kept: a name's key and tag or purpose come apart, since symbols keeps them in columns
#![tactic(auto)]

pub mod declaring;
pub mod entries;
pub mod names;
pub mod roles;

ghost use Rattle.std.specs.Prelude.{◌≡◌};
ghost use Rattle.validation.specs.RefusalNumbers.{judged_number};
ghost use Rattle.name_checks.specs.Shown.{entries_in};
ghost use Rattle.name_checks.specs.Judged.{NamesReady, NamesEntered, NamesJudged, first_number};

use declaring::{is_twice, is_undeclared};
use entries::Entries;
use names::enter_names;
use roles::has_clash;
use symbols::known::{Known, Names};
use validation::Refusal;

// 6, 7 or 8 of the names mentioned; where none applies the new ones stand behind those known, else those known are the ones before
pub fn judge_names(known: &Known, names: &mut Names, entries: Entries) -> Result<(), Refusal>
    requires { NamesReady names.old (entries_in entries) }
    ensures { NamesJudged known.now names.old (entries_in entries.entry) names.new result }
{
    let count = names.count;
    let judged = enter_and_judge(known, names, entries);
    if judged.is_err() {
        names.count = count;
    }
    judged
}

// the same, but where one applies new names may still be counted
fn enter_and_judge(known: &Known, names: &mut Names, entries: Entries) -> Result<(), Refusal>
    requires { NamesReady names.old (entries_in entries) }
    ensures { NamesEntered known.now names.old (entries_in entries.entry) names.new result }
{
    enter_names(names, entries, true)?;
    enter_names(names, entries, false)?;
    first_number(known, entries)
}

// the lowest of 6, 7 and 8 that applies where no name has two purposes
#[tactic(auto, unfolding(crate::specs::Judged::first_number))]
fn first_number(known: &Known, entries: Entries) -> Result<(), Refusal>
    ensures { judged_number result ≡ first_number known.now (entries_in entries.entry) }
{
    if is_twice(known, entries) {
        return Err(Refusal::NameClash);
    }
    if is_undeclared(known, entries) {
        return Err(Refusal::Undeclared);
    }
    if has_clash(entries) {
        return Err(Refusal::FillerClash);
    }
    Ok(())
}
