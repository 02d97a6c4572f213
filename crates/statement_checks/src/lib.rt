// 4, and 6 to 10, of a statement whose form holds, and the environment extended by it.
// Assumes nothing.
#![tactic(auto)]

pub mod counts;
pub mod kinds;
pub mod labels;
pub mod listing;
pub mod routines;
pub mod uses;

ghost use Rattle.statement_checks.specs.Judged.{Judgeable, StatementJudged, Misplaced};
ghost use Rattle.statement_checks.specs.Extending.{Extendable, Extended};
ghost use Rattle.validation.specs.RefusalNumbers.{judged_number};
ghost use Rattle.name_checks.specs.Shown.{entry_count, entries_in};

use counts::{is_over, put_counts};
use kinds::stands_wrong;
use labels::list_labels;
use lexer::keywords::Kind;
use listing::list_names;
use name_checks::entries::Entries;
use name_checks::judge_names;
use routines::{extend_routines, first_routine, scope_behind};
use symbols::known::{Known, Symbols};
use symbols::tags::Purpose;
use symbols::{Cursor, Mentioned};
use uses::note_uses;
use validation::Refusal;

// 4: PROGRAM isn't first or comes twice, or a statement follows END
#[tactic(auto, using(crate::specs::Judging::misplaced_by, crate::proofs::Told::program_told))]
pub fn is_misplaced(known: &Known, kind: Kind) -> bool
    ensures { Misplaced known.now kind result }
{
    let is_program = kind == Kind::Program;
    let is_first = known.statements == 0;
    is_first != is_program || known.ended
}

// extends the environment by a statement: the names are there already, behind the first so many that were known before
fn extend(symbols: &mut Symbols, entries: Entries, c: Cursor, kind: Kind, before: usize)
    requires { Extendable symbols.old (entry_count entries) before }
    ensures { Extended symbols.old (entries_in entries.entry) c kind symbols.new }
{
    let known = &mut symbols.known;
    let step = known.steps;
    let scope = known.scope;
    let opened = first_routine(entries);
    list_names(&mut known.strings, &symbols.names, before, Purpose::String);
    list_names(&mut known.numbers, &symbols.names, before, Purpose::Number);
    list_labels(&mut known.labels, entries, step, scope);
    extend_routines(&mut known.routines, opened, kind, step);
    note_uses(&mut symbols.uses, scope, entries);
    put_counts(known, c, kind, scope_behind(scope, opened, kind));
}

// 6 to 10 of a statement with the names mentioned so far; where none applies the symbol table holds the environment behind it
pub fn judge_statement(
    symbols: &mut Symbols,
    mentioned: &Mentioned,
    c: Cursor,
    kind: Kind,
) -> Result<(), Refusal>
    requires { Judgeable symbols.old c }
    ensures { StatementJudged symbols.old mentioned.now c kind symbols.new (judged_number result) }
{
    let before = symbols.names.count;
    let entries = Entries::first(mentioned, c.names);
    judge_names(&symbols.known, &mut symbols.names, entries)?;
    if stands_wrong(kind, symbols.known.scope) {
        return Err(Refusal::BadNesting);
    }
    extend(symbols, entries, c, kind, before);
    if is_over(&symbols.known, c.longest) {
        return Err(Refusal::TooMany);
    }
    Ok(())
}
