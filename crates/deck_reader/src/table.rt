// Rows of steps and the header of a table, written in their bytes.
// Assumes nothing.
ghost use Rattle.std.specs.Prelude.{◌≡◌, ◌+◌, ◌≤◌, length};
ghost use Rattle.base.specs.Current.{table_size};
ghost use Rattle.encoding.specs.Meaning.{row_meaning, cell_meaning};
ghost use Rattle.encoding.specs.Splices.{splice};
ghost use Rattle.encoding.specs.Table.{cell_bytes};
ghost use Rattle.deck_reader.specs.Writing.{counted_by, with_row, with_header};

use base::STEPS;
use encoding::cells::{Cell, Counts, Row};
use encoding::{STEP_ROW, STEPS_AT};
use symbols::{put_cell, put_number};

// writes the cells of a row at a place
fn put_cells(table: &mut [u8], at: usize, left: Cell, right: Cell)
    requires { at + 16 ≤ length table.old }
    ensures { table.new ≡ splice (splice table.old at (cell_bytes (cell_meaning left))) (at + 8) (cell_bytes (cell_meaning right)) }
{
    put_cell(table, at, left);
    put_cell(table, at + 8, right);
}

// writes row k of all steps; of those behind the last row nothing
pub fn put_row(table: &mut [u8], k: usize, card: usize, row: Row)
    requires { table_size ≤ length table.old }
    ensures { table.new ≡ with_row table.old k card (row_meaning row) }
{
    if k < STEPS {
        let at = STEPS_AT + STEP_ROW * k;
        table[at] = row.kind;
        table[at + 1] = row.flag;
        put_number(table, at + 2, 2, card);
        put_number(table, at + 4, 2, row.branch.success);
        put_number(table, at + 6, 2, row.branch.failure);
        put_cells(table, at + 8, row.left, row.right);
    }
}

// writes the header: the format and the six counts
// kept: a call for each count, since a loop over an array of them takes an invariant and two laws more
pub fn put_header(table: &mut [u8], n: Counts)
    requires { table_size ≤ length table.old }
    ensures { table.new ≡ with_header (counted_by n table.old) n.strings n.numbers }
{
    table[0] = 1;
    table[1] = 0;
    put_number(table, 2, 2, n.steps);
    put_number(table, 4, 2, n.strings);
    put_number(table, 6, 2, n.numbers);
    put_number(table, 8, 2, n.elements);
    put_number(table, 10, 2, n.items);
    put_number(table, 12, 2, n.literals);
}
