// 11 and 12 of a deck whose statements passed: whether labels and routines used are defined, and whether a routine executes itself.
// Assumes nothing.
#![tactic(auto)]

pub mod defined;
pub mod executed;
pub mod rounds;

ghost use Rattle.std.specs.Prelude.{false, ◌≡◌};
ghost use Rattle.link_checks.specs.Held.{Closable, held_in};
ghost use Rattle.validation.specs.Deck.{is11, is12};

use defined::loses_any;
use executed::executed_pairs;
use rounds::comes_back;
use symbols::known::Symbols;

// 11: whether a label or routine used is undefined, or a branch crosses a routine's border
pub fn undefined_or_crossing(symbols: &Symbols) -> bool
    requires { Closable symbols.now }
    ensures { result ≡ is11 (held_in symbols.now) }
{
    let uses = &symbols.uses;
    let count = uses.count;
    loses_any(
        &symbols.known,
        &uses.keys[..count],
        &uses.scopes[..count],
        &uses.purposes[..count],
    )
}

// 12: whether a routine executes itself, directly or through others; of a deck that 11 does not turn down
pub fn executes_itself(symbols: &Symbols) -> bool
    requires { Closable symbols.now }
    ensures { is11 (held_in symbols.now) ≡ false → result ≡ is12 (held_in symbols.now) }
{
    let count = symbols.known.routines.len();
    let executed = executed_pairs(symbols);
    (0..count).any(|i| comes_back(&executed, count, i))
}
