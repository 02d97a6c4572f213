// The counts of statements, steps and all that 10 counts.
// Assumes nothing.
ghost use Rattle.std.specs.Prelude.{◌≡◌, ◌≤◌, ltb};
ghost use Rattle.std.specs.List.{list_any};
ghost use Rattle.statement_checks.specs.Counts.{steps_behind, ended_behind, counts_after, is_over};

use lexer::keywords::Kind;
use symbols::Cursor;
use symbols::known::Known;

// the steps behind a statement of a kind
#[tactic(auto, unfolding(crate::specs::Counts::steps_behind))]
fn steps_behind(steps: usize, kind: Kind) -> usize
    requires { steps ≤ 256 }
    ensures { result ≡ steps_behind steps kind }
{
    match kind {
        Kind::Program | Kind::Number => steps,
        _ => steps + 1,
    }
}

// whether a statement of a kind is END
#[tactic(auto, using(crate::proofs::Told::end_told))]
fn ended_behind(kind: Kind) -> bool
    ensures { result ≡ ended_behind kind }
{
    kind == Kind::End
}

// writes the counts behind a statement
// kept: three counts copied one by one: they are no struct, as symbols says of Cursor
pub fn put_counts(known: &mut Known, c: Cursor, kind: Kind, scope: u64)
    requires { (known.old.statements ≤ 256) × (known.old.steps ≤ 256) }
    ensures { known.new ≡ counts_after known.old c kind scope }
{
    known.statements += 1;
    known.steps = steps_behind(known.steps, kind);
    known.ended = ended_behind(kind);
    known.scope = scope;
    known.elements = c.elements;
    known.items = c.items;
    known.literals = c.literals;
}

// whether one of some counts passes what is allowed of it
fn passes_any(counts: &[(usize, usize)]) -> bool
    ensures { result ≡ list_any (λ c. ltb c.1 c.0) counts.now }
{
    counts.iter().any(|(count, most)| *count > *most)
}

// 10: whether a count passes what is allowed, or the longest row of the statement does; there may be as many statements as steps
#[tactic(auto, unfolding(crate::specs::Counts::is_over))]
pub fn is_over(known: &Known, longest: usize) -> bool
    ensures { result ≡ is_over known.now longest }
{
    passes_any(&[
        (known.statements, base::STEPS),
        (known.strings.len(), base::STRINGS),
        (known.numbers.len(), base::NUMBERS),
        (known.labels.len(), base::LABELS),
        (known.routines.len(), base::ROUTINES),
        (longest, base::ROW),
        (known.elements, base::ELEMENTS),
        (known.items, base::ITEMS),
        (known.literals, base::LITERALS),
    ])
}
