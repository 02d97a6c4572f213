// Whether a table keeps its rules (docs/TABLE.md). Each cell and row is judged by its kind, in one pass; the running places of elements,
// items and literals say what a range has to be. The contracts cite tests that mirror the code, and the rules themselves at the end.
// Assumes nothing.
// kept: a table is a slice, as crate encoding says, and comes apart from its counts: what judges a cell or a row takes the counts alone
#![tactic(auto)]

mod kinds;
mod steps;

ghost use Rattle.std.specs.Prelude.{◌≡◌, ◌≤◌, length};
ghost use Rattle.base.specs.Current.{current, table_size};
ghost use Rattle.encoding.specs.Rules.{keeps_rules};
ghost use Rattle.verifier.specs.Tests.{FewCounts, counts_test, zeros_test, unused_test, ends_test, totals_test};

use encoding::cells::Counts;
use encoding::step_kinds::FINISH;
use encoding::{ELEMENTS_AT, ITEMS_AT, LITERALS_AT, STEP_ROW, STEPS_AT, TABLE_CELL, TABLE_SIZE};
use steps::Places;

// Whether the counts of the header are within their limits, and there is a step.
fn counts_hold(n: Counts) -> bool
    ensures { result ≡ counts_test n }
{
    (1 <= n.steps)
        & (n.steps <= base::STEPS)
        & (n.strings <= base::STRINGS)
        & (n.numbers <= base::NUMBERS)
        & (n.elements <= base::ELEMENTS)
        & (n.items <= base::ITEMS)
        & (n.literals <= base::LITERALS)
}

// Whether the bytes from..to are zero.
fn zeros(t: &[u8], from: usize, to: usize) -> bool
    requires { (from ≤ to) × (to ≤ length t.now) }
    ensures { result ≡ zeros_test t.now from to }
{
    store::spans::are_zero(&t[from..to])
}

// Whether the bytes that hold nothing are zero: behind the header's counts, and behind the rows of each region.
fn unused_zero(t: &[u8], n: Counts) -> bool
    requires { (table_size ≤ length t.now) × FewCounts n }
    ensures { result ≡ unused_test n t.now }
{
    zeros(t, 14, STEPS_AT)
        & zeros(t, STEPS_AT + STEP_ROW * n.steps, ELEMENTS_AT)
        & zeros(t, ELEMENTS_AT + TABLE_CELL * n.elements, ITEMS_AT)
        & zeros(t, ITEMS_AT + TABLE_CELL * n.items, LITERALS_AT)
        & zeros(t, LITERALS_AT + n.literals, TABLE_SIZE)
}

// Whether the table starts as every table does, and its last step finishes.
fn ends_hold(t: &[u8], n: Counts) -> bool
    requires { (table_size ≤ length t.now) × FewCounts n }
    ensures { result ≡ ends_test n t.now }
{
    (t[0] == 1) & (t[1] == 0) & (t[STEPS_AT + STEP_ROW * (n.steps - 1)] == FINISH)
}

// Whether there are places behind all steps, and they are the header's counts.
// kept: field by field: Places and Counts have three fields in common, and Counts three more
fn totals_hold(end: Option<Places>, n: Counts) -> bool
    ensures { result ≡ totals_test n end }
{
    match end {
        Some(p) => {
            (p.elements == n.elements) & (p.items == n.items) & (p.literals == n.literals)
        }
        None => false,
    }
}

// Whether the table keeps its rules.
pub fn keeps(table: &[u8]) -> bool
    requires { table_size ≤ length table.now }
    ensures { result ≡ keeps_rules current table.now }
{
    let n = decoder::counts_of(table);
    if !counts_hold(n) {
        return false;
    }
    ends_hold(table, n) & unused_zero(table, n) & totals_hold(steps::steps_end(table, n), n)
}
