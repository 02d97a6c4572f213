// The routines declared: ROUTINE opens one, ENDROUTINE closes the latest.
// Assumes nothing.
ghost use Rattle.std.specs.Prelude.{◌≡◌, ◌≤◌};
ghost use Rattle.std.specs.List.{position};
ghost use Rattle.arrayvec.specs.ArrayVec.{array_vec_len};
ghost use Rattle.validation.specs.Environment.{close_routine};
ghost use Rattle.symbols.specs.Environment.{latest_first};
ghost use Rattle.name_checks.specs.Shown.{entries_in};
ghost use Rattle.statement_checks.specs.Routines.{declares_routine, routine_names, routines_behind, scope_behind, Opens};

use arrayvec::ArrayVec;
use lexer::keywords::Kind;
use name_checks::entries::Entries;
use symbols::known::{LISTED_ROUTINES, Routine};
use symbols::tags::Tag;

// the place of the first tag that declares a routine
#[tactic(auto, using(crate::proofs::Told::routine_tag))]
fn routine_place(tags: &[Tag]) -> Option<usize>
    ensures { result ≡ position declares_routine tags.now }
{
    tags.iter().position(
        |tag: &Tag| -> bool
            ensures { result ≡ declares_routine tag.now }
        { *tag == Tag::RoutineDeclared },
    )
}

// the key of the first routine that a statement declares, if any
#[tactic(auto, using(crate::specs::RoutineLaws::routine_first, crate::specs::RoutineLaws::routine_none))]
pub fn first_routine(entries: Entries) -> Option<u64>
    ensures { Opens (routine_names (entries_in entries.entry)) result }
{
    let i = routine_place(entries.tags)?;
    Some(entries.keys[i])
}

// closes the latest routine, if there is one
fn close(routines: &mut ArrayVec<Routine, LISTED_ROUTINES>, exit: usize)
    ensures { latest_first routines.new.items ≡ close_routine exit (latest_first routines.old.items) }
{
    if let Some(latest) = routines.last_mut() {
        latest.exit = exit;
    }
}

// what a statement of a kind makes of the routines
#[tactic(auto, using(crate::specs::RoutineLaws::latest_opened), unfolding(crate::specs::Routines::routines_behind))]
pub fn extend_routines(
    routines: &mut ArrayVec<Routine, LISTED_ROUTINES>,
    opened: Option<u64>,
    kind: Kind,
    step: usize,
)
    requires { (array_vec_len routines.old ≤ 16) × (step ≤ 256) }
    ensures { latest_first routines.new.items ≡ routines_behind step (latest_first routines.old.items) opened kind }
{
    match (kind, opened) {
        (Kind::EndRoutine, _) => close(routines, step + 1),
        (_, Some(key)) => routines.push(Routine {
            key,
            entry: step + 1,
            exit: 0,
        }),
        (_, None) => {}
    }
}

// the key of the routine that is open behind a statement
#[tactic(auto, unfolding(crate::specs::Routines::scope_behind))]
pub fn scope_behind(scope: u64, opened: Option<u64>, kind: Kind) -> u64
    ensures { result ≡ scope_behind scope opened kind }
{
    match (opened, kind) {
        (Some(key), _) => key,
        (None, Kind::EndRoutine) => 0,
        (None, _) => scope,
    }
}
