// The register's closing report: its lines, and for each currency of theirs the TOTAL line with what its lines add up to. Once the register is read,
// its lines are gone through twice: for codes, tonnes, values and size, and to put them. So nothing is put unless all of it has room.
// Assumes nothing.
#![tactic(auto)]

ghost use Rattle.std.specs.Prelude.{true, ◌≡◌, ◌+◌, ◌<◌, ◌≤◌, length, take, drop};
ghost use Rattle.printing.specs.Printing.{Put};
ghost use Rattle.register.specs.Buffer.{register_in};
ghost use Rattle.register.specs.Calls.{report_call};
ghost use Rattle.register.specs.Claims.{ReportPromise, report_back};
ghost use Rattle.register.specs.Line.{is_record};
ghost use Rattle.register.specs.Report.{printed_records};
ghost use Rattle.register.specs.Refusals.{number_of};
ghost use Rattle.register_report.specs.Codes.{CodeFound, currency_code, lowest_code, no_code};
ghost use Rattle.register_report.specs.Sums.{LinesPut, Numeric, FieldShows, Summed, codes_in, tonnes_in, values_in};
ghost use Rattle.register_report.specs.Sums.{TotalsFor, TotalsMade, Weighed, WorthsFit, longest_total, size_in, total_text};

use arrayvec::ArrayVec;
use printing::{LONGEST_NUMBERS, put, put_numbers};
use register::{LINES, Refusal};
use register_reading::{Opened, read_opened};
use store::spans;

// the bytes from the end of a contract to the tonnes: two commas and the grain
const TO_TONNES: usize = 4;

// above every currency's code, which has three bytes
const NO_CODE: u32 = 16_777_216;

// room for a TOTAL line with any three numbers of 64 bits
const LONGEST_TOTAL: usize = 9 + LONGEST_NUMBERS;

// the most bytes of a TOTAL line of a register with its byte 10; room for one for each line, and behind them for any that is being put
const MOST_TOTAL: usize = 38;

const TOTALS_ROOM: usize = MOST_TOTAL * LINES + LONGEST_TOTAL;

// a number in a line, and where it ends
// kept: lexer's Constant has the same two parts; to share it the report would take lexer, a crate of a deck's statements, for a struct of two fields
#[derive(Clone, Copy)]
struct Field {
    value: u64,
    end: usize,
}

// a line's currency as a code, and what the line adds to that currency's sums: tonnes, and cents
#[derive(Clone, Copy, Default)]
struct Worth {
    code: u32,
    tonnes: u64,
    value: u64,
}

// what the lines of a currency add up to
#[derive(Clone, Copy)]
struct Sums {
    count: u64,
    tonnes: u64,
    value: u64,
}

// the bytes that the lines of a register are printed in, and those of its TOTAL lines
#[derive(Clone, Copy)]
struct Sizes {
    lines: usize,
    totals: usize,
}

// the number in the field that begins at a place: digits alone, up to the largest price
// kept: a fold's closure takes any byte and any value; that each is a digit, and the value small, is the loop's invariant
// kept: search::next_byte with numbers::decimal_of behind it goes over the digits twice: a report of 256 lines took 1.13 of the time
fn number_at(line: &[u8], at: usize) -> Field
    requires { Numeric line.now at }
    ensures { FieldShows line.now at result }
{
    let mut value: u64 = 0;
    for end in at..line.len() {
        let b = line[end];
        if b == b',' {
            return Field { value, end };
        }
        value = value * 10 + (b - b'0') as u64;
    }
    Field {
        value,
        end: line.len(),
    }
}

// the code of the three bytes at a place: one number, the first byte the highest, so that codes are in letter order
fn code_at(line: &[u8], at: usize) -> u32
    requires { at + 3 ≤ length line.now }
    ensures { result ≡ currency_code (take 3 (drop at line.now)) }
{
    u32::from_be_bytes([0, line[at], line[at + 1], line[at + 2]])
}

// what a record adds to its currency's sums
fn worth_of(line: &[u8]) -> Worth
    requires { is_record line.now ≡ true }
    ensures { Weighed line.now result }
{
    let contract = search::next_byte(line, b',', 0);
    let tonnes = number_at(line, contract + TO_TONNES);
    let price = number_at(line, tonnes.end + 1);
    let code = code_at(line, price.end + 1);
    Worth {
        code,
        tonnes: tonnes.value,
        value: tonnes.value * price.value,
    }
}

// the lowest code above the last one, if there is one
// kept: lowest_code goes code by code, as this loop does; a filter with both bounds and min would need a law more, from the least to lowest_code
fn next_code(worths: &[Worth], last: u32) -> Option<u32>
    ensures { CodeFound (lowest_code last no_code (codes_in worths.now)) result }
{
    let mut next = NO_CODE;
    for worth in worths {
        let code = worth.code;
        if (last < code) & (code < next) {
            next = code;
        }
    }
    if next < NO_CODE { Some(next) } else { None }
}

// what the lines with a code add up to
fn sums_of(worths: &[Worth], code: u32) -> Sums
    requires { WorthsFit worths.now }
    ensures { Summed code (codes_in worths.now) (tonnes_in worths.now) (values_in worths.now) result }
{
    let mut count: u64 = 0;
    let mut tonnes: u64 = 0;
    let mut value: u64 = 0;
    for worth in worths {
        if worth.code == code {
            count += 1;
            tonnes += worth.tonnes;
            value += worth.value;
        }
    }
    Sums {
        count,
        tonnes,
        value,
    }
}

// the TOTAL line of a code with its byte 10, from a place on; where it ends
fn put_total(code: u32, sums: Sums, at: usize, out: &mut [u8]) -> usize
    requires { (code < no_code) × (at + longest_total ≤ length out.old) }
    ensures { Put out.old out.new at (total_text code sums) result }
{
    let word_end = put(b"TOTAL,", at, out);
    let currency_end = put(&code.to_be_bytes()[1..], word_end, out);
    put_numbers(sums.count, sums.tonnes, sums.value, currency_end, out)
}

// the TOTAL lines of all codes in their order, each with its byte 10, at the start of out; where they end. There are no more codes than lines
// kept: a turn for each line at most, which the range says; `while let` would need a measure for it in its place
fn put_totals(worths: &[Worth], out: &mut [u8; TOTALS_ROOM]) -> usize
    requires { WorthsFit worths.now }
    ensures { TotalsFor worths.now out.new result }
{
    let mut next = next_code(worths, 0);
    let mut at = 0;
    for j in 0..worths.len() {
        match next {
            None => return at,
            Some(code) => {
                at = put_total(code, sums_of(worths, code), at, out);
                next = next_code(worths, code);
            }
        }
    }
    at
}

// the TOTAL lines of a register, at the start of out; the bytes of its lines and theirs
// kept: by the line's place, here and in put_lines: slots by chunks_exact would be trimmed here once more, which Opened::line does
// kept: the list of worths is filled here: a function that answers it by value made a report of 20 lines take 1.11 of the time, an empty one 1.44
fn make_totals(register: Opened, out: &mut [u8; TOTALS_ROOM]) -> Sizes
    ensures { TotalsMade (register_in register.entry.buffer.now).lines out.new result }
{
    let mut worths: ArrayVec<Worth, LINES> = ArrayVec::new();
    let mut lines = 0;
    for place in 0..register.lines {
        let line = register.line(place);
        worths.push(worth_of(line));
        lines += line.len() + 1;
    }
    let totals = put_totals(worths.as_slice(), out);
    Sizes { lines, totals }
}

// the lines of a register, each with byte 10, at the start of the output; where they end
fn put_lines(register: Opened, output: &mut [u8]) -> usize
    requires { length (printed_records (register_in register.buffer.now).lines) ≤ length output.old }
    ensures { LinesPut (register_in register.entry.buffer.now).lines output.old output.new result }
{
    let mut put_to = 0;
    for place in 0..register.lines {
        put_to = spans::put_line(output, put_to, register.line(place));
    }
    put_to
}

// Puts the report of a register, and answers how long it is; or the output has no room for it, and nothing is put.
fn put_report(register: Opened, output: &mut [u8]) -> Result<u32, Refusal>
    ensures { report_back (number_of result) output.new (size_in result) ≡ report_call register.entry.buffer.now output.old }
{
    let mut totals = [0; TOTALS_ROOM];
    let sizes = make_totals(register, &mut totals);
    let size = sizes.lines + sizes.totals;
    if output.len() < size {
        return Err(Refusal::OutputFull);
    }
    let at = put_lines(register, output);
    spans::write(output, at, &totals[..sizes.totals]);
    Ok(size as u32)
}

// puts the report of the register in a buffer, and answers how long it is
fn report(buffer: &[u8], output: &mut [u8]) -> Result<u32, Refusal>
    ensures { report_back (number_of result) output.new (size_in result) ≡ report_call buffer.now output.old }
{
    let register = read_opened(buffer)?;
    put_report(register, output)
}

// Puts the closing report of the register.
pub fn strigol_register_report(buffer: &[u8], output: &mut [u8], length: &mut u32) -> u32
    ensures { ReportPromise buffer.now output.old (report_back result output.new length.new) }
{
    *length = 0;
    match report(buffer, output) {
        Ok(size) => {
            *length = size;
            0
        }
        Err(refusal) => refusal.number(),
    }
}
