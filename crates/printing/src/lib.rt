// Bytes put one behind the other, numbers among them in decimal, as the program's closing line and the register's TOTAL line have them.
// Assumes nothing.
#![tactic(auto)]

ghost use Rattle.std.specs.Prelude.{◌++◌, ◌+◌, ◌≤◌, length};
ghost use Rattle.base.specs.Text.{bytes};
ghost use Rattle.values.specs.Conversion.{digits};
ghost use Rattle.printing.specs.Printing.{Put, PutWithin, longest_number, longest_numbers, numbers_text};

use numbers::put_digits;
use store::spans::write;

// a comma and the digits of a number of 64 bits
const LONGEST_NUMBER: usize = 21;

// three of these and a line end
pub const LONGEST_NUMBERS: usize = 3 * LONGEST_NUMBER + 1;

// bytes, from at on; where they end. Here and below, what stands behind them may change
// kept: bytes at a place of the caller's buffer, as each contract says; Display writes to a Formatter. So too numbers::put_digits
// kept: place and output come apart: a writer that holds the output as `&mut` takes a clause more in every contract, that it still holds that one;
// and of a part, `&mut out[at..]`, each function would answer a length, which its caller adds to the place again
pub fn put(v: &[u8], at: usize, out: &mut [u8]) -> usize
    requires { at + length v.now ≤ length out.old }
    ensures { Put out.old out.new at v.now result }
{
    write(out, at, v);
    at + v.len()
}

// a comma and the digits of a number, from at on; where they end
fn put_number(v: u64, at: usize, out: &mut [u8]) -> usize
    requires { at + longest_number ≤ length out.old }
    ensures { PutWithin longest_number out.old out.new at (bytes "," ++ digits v) result }
{
    let from = put(b",", at, out);
    put_digits(v, from, out)
}

// three numbers, each behind a comma, and a line end, from at on; where all of it ends
pub fn put_numbers(first: u64, second: u64, third: u64, at: usize, out: &mut [u8]) -> usize
    requires { at + longest_numbers ≤ length out.old }
    ensures { Put out.old out.new at (numbers_text first second third) result }
{
    let first_end = put_number(first, at, out);
    let second_end = put_number(second, first_end, out);
    let third_end = put_number(third, second_end, out);
    put(b"\n", third_end, out)
}
