// 6 and 7 of declarations: names declared twice, and numbers used that are not declared.
// Assumes nothing.
ghost use Rattle.std.specs.Prelude.{◌≡◌, ◌+◌, ◌≤◌, ◌<◌};
ghost use Rattle.base.specs.Lists.{any};
ghost use Rattle.validation.specs.Environment.{same_mention};
ghost use Rattle.symbols.specs.Entries.{entry, gather, declared_by, used_by};
ghost use Rattle.name_checks.specs.Shown.{entry_count, entries_in, entries_left};
ghost use Rattle.name_checks.specs.Names.{key_mention};
ghost use Rattle.name_checks.specs.Declaring.{declared_in, undeclared_in, again, again_at};

use crate::entries::Entries;
use symbols::known::Known;
use symbols::tags::{Purpose, Tag};

// whether a name is declared with a purpose before
fn is_declared(known: &Known, key: u64, purpose: Purpose) -> bool
    ensures { result ≡ declared_in known.now (key_mention key purpose) }
{
    match purpose {
        Purpose::Label => known.labels.iter().any(|label| label.key == key),
        Purpose::Routine => known.has_routine(key),
        Purpose::Number => known.has_number(key),
        Purpose::Program | Purpose::String => false,
    }
}

// whether an entry declares this name with this purpose
#[tactic(auto, using(crate::specs::DeclaringLaws::declares_is, crate::proofs::Comparing::purposes_same))]
fn declares(key: u64, purpose: Purpose, k: u64, tag: Tag) -> bool
    ensures { result ≡ any (same_mention (key_mention key purpose)) (declared_by (entry k tag)) }
{
    k == key && tag.is_declared() && tag.purpose() == purpose
}

// whether a name is declared by an entry from a place on
// kept: place by place: it runs for each pair of names; by `any` over the places it takes 1.6 times as long, over a zip of the columns three times
#[tactic(auto, using(crate::specs::LoopLaws::any_steps))]
fn is_declared_from(entries: Entries, from: usize, key: u64, purpose: Purpose) -> bool
    requires { from ≤ entry_count entries }
    ensures { result ≡ any (same_mention (key_mention key purpose)) (gather declared_by (entries_left entries.entry from)) }
{
    for i in from..entries.keys.len() {
        if declares(key, purpose, entries.keys[i], entries.tags[i]) {
            return true;
        }
    }
    false
}

// whether an entry declares a name that is declared before, or again behind it
#[tactic(auto, using(crate::specs::DeclaringLaws::again_is))]
fn is_again(known: &Known, entries: Entries, i: usize) -> bool
    requires { i < entry_count entries }
    ensures { result ≡ again_at (declared_in known.now) entries.entry i }
{
    let key = entries.keys[i];
    let tag = entries.tags[i];
    let purpose = tag.purpose();
    tag.is_declared()
        && (is_declared(known, key, purpose) || is_declared_from(entries, i + 1, key, purpose))
}

// 6: whether a label, routine or number is declared twice, here or here and before
pub fn is_twice(known: &Known, entries: Entries) -> bool
    ensures { result ≡ again (declared_in known.now) (gather declared_by (entries_in entries.entry)) }
{
    (0..entries.keys.len()).any(|i| is_again(known, entries, i))
}

// whether an entry uses a number that is not declared before
#[tactic(auto, using(crate::specs::DeclaringLaws::lacks_is, crate::proofs::Comparing::number_told))]
fn lacks_number(known: &Known, key: u64, tag: Tag) -> bool
    ensures { result ≡ any (undeclared_in known.now) (used_by (entry key tag)) }
{
    tag == Tag::NumberUsed && !known.has_number(key)
}

// 7: whether a name used as a number is not declared before
pub fn is_undeclared(known: &Known, entries: Entries) -> bool
    ensures { result ≡ any (undeclared_in known.now) (gather used_by (entries_in entries.entry)) }
{
    entries
        .keys
        .iter()
        .zip(entries.tags)
        .any(|(key, tag)| lacks_number(known, *key, *tag))
}
