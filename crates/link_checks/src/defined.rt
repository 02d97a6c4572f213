// Labels and routines declared, looked up by their keys.
// Assumes nothing.
ghost use Rattle.std.specs.Prelude.{◌≡◌};
ghost use Rattle.std.specs.List.{list_any, zip};
ghost use Rattle.link_checks.specs.Lost.{has_label, is_lost};

use symbols::known::Known;
use symbols::tags::Purpose;

// whether a label is declared in a scope: a routine by its key, 0 outside all
// kept: a use's parts come apart, here and below, since symbols keeps them in columns
fn has_label(known: &Known, key: u64, scope: u64) -> bool
    ensures { result ≡ has_label known.now key scope }
{
    known
        .labels
        .iter()
        .any(|label| label.key == key && label.scope == scope)
}

// whether a use is of a label that its scope does not have, or of a routine that is not declared
pub fn is_lost(known: &Known, key: u64, scope: u64, purpose: Purpose) -> bool
    ensures { result ≡ is_lost known.now key scope purpose }
{
    match purpose {
        Purpose::Label => !has_label(known, key, scope),
        Purpose::Routine => !known.has_routine(key),
        Purpose::Program | Purpose::Number | Purpose::String => false,
    }
}

// whether one of some uses is lost so
pub(crate) fn loses_any(known: &Known, keys: &[u64], scopes: &[u64], purposes: &[Purpose]) -> bool
    ensures { result ≡ list_any (λ u. is_lost known.now u.0.0 u.0.1 u.1) (zip (zip keys.now scopes.now) purposes.now) }
{
    keys.iter().zip(scopes).zip(purposes).any(|((key, scope), purpose)| is_lost(
        known, *key, *scope, *purpose,
    ))
}
