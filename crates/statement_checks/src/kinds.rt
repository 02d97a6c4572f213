// 9: where a kind of statement may stand.
// Assumes nothing.
ghost use Rattle.std.specs.Prelude.{◌≡◌};
ghost use Rattle.statement_checks.specs.Extending.{wrong_in};

use lexer::keywords::Kind;

// 9: ROUTINE or END inside a routine, RETURN or ENDROUTINE outside
#[tactic(auto, unfolding(crate::specs::Extending::wrong_in))]
pub fn stands_wrong(kind: Kind, scope: u64) -> bool
    ensures { result ≡ wrong_in kind scope }
{
    match kind {
        Kind::Routine | Kind::End => scope != 0,
        Kind::Return | Kind::EndRoutine => scope == 0,
        _ => false,
    }
}
