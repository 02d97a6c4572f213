// 8 of a SCAN: the reference is also a filler, or a pattern string has the name of a filler left of it.
// Assumes nothing.
ghost use Rattle.std.specs.Prelude.{◌≡◌, [], ◌≤◌, ◌<◌};
ghost use Rattle.validation.specs.Refusals.{clashes};
ghost use Rattle.symbols.specs.Entries.{gather, roles_by};
ghost use Rattle.name_checks.specs.Shown.{entry_count, entries_in};
ghost use Rattle.name_checks.specs.Roles.{fillers_have, Unclashed, clash_at, searched_behind};

use crate::entries::Entries;
use symbols::tags::Tag;

// whether a filler before place n has this key, where no string before n clashes: the latest string or filler with the key tells
// kept: a loop: a find_map over the places back from n would have the same test and match, Some around true and false, and unwrap_or behind
#[tactic(auto, using(crate::specs::RoleLaws::fillers_turn), unfolding(crate::specs::Roles::fillers_have, crate::specs::Roles::is_filler))]
fn is_filler_before(entries: Entries, n: usize, key: u64) -> bool
    requires { (n ≤ entry_count entries) × Unclashed entries n }
    ensures { result ≡ fillers_have entries.entry n key }
{
    for i in (0..n).rev() {
        if entries.keys[i] == key {
            match entries.tags[i] {
                Tag::FillerUsed => return true,
                Tag::SoughtUsed => return false,
                _ => {}
            }
        }
    }
    false
}

// whether the role at a place clashes with those before it, with this key of the reference
#[tactic(auto, unfolding(crate::specs::Roles::clash_at, crate::specs::Roles::clash_of))]
fn clashes_at(entries: Entries, i: usize, searched: u64) -> bool
    requires { (i < entry_count entries) × Unclashed entries i }
    ensures { result ≡ clash_at entries.entry i searched }
{
    let key = entries.keys[i];
    match entries.tags[i] {
        Tag::SoughtUsed => is_filler_before(entries, i, key),
        Tag::FillerUsed => searched == key,
        _ => false,
    }
}

// the key of the reference behind a name: 0, which shows no name, as long as there is none
// kept: 0 is the key of the empty name, with which document 01's clashes begins; None would answer otherwise of a filler that has this key
#[tactic(auto, unfolding(crate::specs::Roles::searched_behind))]
fn searched_behind(key: u64, tag: Tag, searched: u64) -> u64
    ensures { result ≡ searched_behind key tag searched }
{
    match tag {
        Tag::ReferenceUsed => key,
        _ => searched,
    }
}

// 8: whether the roles of the names mentioned clash
// kept: a loop: the key of the reference goes along from name to name, so a chain would be a try_fold that fails where a clash is found
#[tactic(auto, using(crate::specs::RoleLaws::clash_steps))]
pub fn has_clash(entries: Entries) -> bool
    ensures { result ≡ clashes [] [] (gather roles_by (entries_in entries.entry)) }
{
    let mut searched: u64 = 0;
    for i in 0..entries.keys.len() {
        if clashes_at(entries, i, searched) {
            return true;
        }
        searched = searched_behind(entries.keys[i], entries.tags[i], searched);
    }
    false
}
