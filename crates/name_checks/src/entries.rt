// The names that a statement mentions, cut out of all that are noted.
// Assumes nothing.
ghost use Rattle.std.specs.Prelude.{◌≡◌, ◌≤◌, length};

use symbols::Mentioned;
use symbols::tags::Tag;

// the names that a statement mentions, in order of time, each by its key and its tag
#[derive(Clone, Copy)]
pub struct Entries<'a> {
    pub keys: &'a [u64],
    pub tags: &'a [Tag],
    pub ghost same: { length keys.now ≡ length tags.now },
}

impl<'a> Entries<'a> {
    ghost use Rattle.name_checks.specs.Shown.{entry_count, entries_from, entries_in};
    ghost use Rattle.symbols.specs.Clauses.{names_room};

    // the first so many of those noted
    pub fn first(mentioned: &'a Mentioned, count: usize) -> Entries<'a>
        requires { count ≤ names_room }
        ensures { (entry_count result ≡ count) × (entries_in result ≡ entries_from mentioned.now 0 count) }
    {
        Entries {
            keys: &mentioned.keys[..count],
            tags: &mentioned.tags[..count],
        }
    }
}
