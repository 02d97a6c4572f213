// Writing the rows of a pattern. Each contract says what stands in them and that the rows before are as they were.
ghost use Rattle.std.specs.Prelude.{◌≡◌, ◌+◌, ◌*◌, ◌<◌, ◌^◌, length};
ghost use Rattle.scan.specs.Rows.{scan_row};
ghost use Rattle.scan_statement.specs.Putting.{Put4, PutRow, RowSmall};
ghost use Rattle.scanning.specs.Kinds.{row_kind_number};

use scan::Element;
use scanning::{ROW_SIZE, RowKind};

// a number as four bytes at a place, low byte first
fn put4(rows: &mut [u8], at: usize, n: usize)
    requires { (at + 3 < length rows.old) × (n < 2 ^ 32) }
    ensures { Put4 rows.old rows.new at n }
{
    rows[at..at + 4].copy_from_slice(&(n as u32).to_le_bytes());
}

// Row i of a pattern: kind 1 is a string with its part's ends, 2 a fixed filler with its length, 3 a free filler.
// kept: kind and numbers as a row has them (C interface)
pub fn put_row(rows: &mut [u8], i: usize, kind: u8, a: usize, b: usize)
    requires i_in_bounds { (12 * i + 11 < length rows.old) × (i < 20) }
    requires a_bound { (a < 2 ^ 32) × (b < 2 ^ 32) }
    ensures { PutRow rows.old rows.new i (scan_row kind a b) }
{
    let at = ROW_SIZE * i;
    rows[at] = kind;
    put4(rows, at + 4, a);
    put4(rows, at + 8, b);
}

// the kind and the two numbers that an element is in its row
fn row_of(e: Element) -> (RowKind, usize, usize)
    requires { RowSmall e }
    ensures { (scan_row (row_kind_number result.0) result.1 result.2 ≡ e) × (result.1 < 2 ^ 32) × (result.2 < 2 ^ 32) }
{
    match e {
        Element::Part(from, to) => (RowKind::String, from, to),
        Element::Fixed(n) => (RowKind::Fixed, n, 0),
        Element::Free => (RowKind::Free, 0, 0),
    }
}

// Row i of a pattern is an element.
pub fn put_row_of(rows: &mut [u8], i: usize, e: Element)
    requires i_in_bounds { (12 * i + 11 < length rows.old) × (i < 20) }
    requires small { RowSmall e }
    ensures { PutRow rows.old rows.new i e }
{
    let (kind, a, b) = row_of(e);
    put_row(rows, i, kind.number(), a, b);
}
