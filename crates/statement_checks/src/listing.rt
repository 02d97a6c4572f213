// The strings and numbers among the names known, one more of each than 10 allows.
// Assumes nothing.
ghost use Rattle.std.specs.Prelude.{◌≡◌, [], ◌∷◌, ◌++◌, take};
ghost use Rattle.statement_checks.specs.Listing.{Listing, ShowsNames};
ghost use Rattle.symbols.specs.Entries.{purpose_meaning};

use arrayvec::ArrayVec;
use symbols::known::Names;
use symbols::tags::Purpose;

// notes an element behind the others, unless there are as many as can be noted
pub(crate) fn note<T: Copy, const MOST: usize>(list: &mut ArrayVec<T, MOST>, element: T)
    ensures { list.new.items ≡ take MOST (list.old.items ++ (element ∷ [])) }
{
    list.try_push(element).ok();
}

// notes the names of a purpose among those behind the first so many
#[tactic(auto, using(crate::proofs::Told::names_told))]
pub fn list_names<const MOST: usize>(
    keys: &mut ArrayVec<u64, MOST>,
    names: &Names,
    before: usize,
    purpose: Purpose,
)
    requires { Listing MOST names.now before (purpose_meaning purpose) keys.old.items }
    ensures { ShowsNames MOST names.now names.now.count (purpose_meaning purpose) keys.new.items }
{
    // kept: by place: for a zip both columns would be cut first, before..names.count
    for i in before..names.count {
        if names.purposes[i] == purpose {
            note(keys, names.keys[i]);
        }
    }
}
