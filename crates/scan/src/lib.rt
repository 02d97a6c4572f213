// The scan of document 01 over a pattern of rows, and the scan call. A pattern is rows of 12 bytes, as the call lends them; an element is made
// of a row where it is matched. The contracts cite the definitions of crate scanning. Assumes nothing.
#![tactic(auto)]

ghost use Rattle.std.specs.Prelude.{true, cond, ◌≡◌, ◌∷◌, ◌+◌, ◌≤◌, ◌<◌, ◌^◌, length, get_or, set};
ghost use Rattle.std.specs.List.{concat};
ghost use Rattle.std.proofs.Math.Option.{none};
ghost use Rattle.scanning.specs.Splits.{string};
ghost use Rattle.scanning.specs.Trials.{scan};
ghost use Rattle.scanning.specs.Call.{number4 as Call·number4, split_numbers, answer_numbers, scan_call, ScanPromise};
ghost use Rattle.scan.specs.Rows.{scan_row_at, scan_element, pattern_of, size_of, sizes_at, is_element, RowSized, RowGood, GoodRows, GoodPattern, good_pattern_prop, RowsSay, row_answer};
ghost use Rattle.scan.specs.Steps.{test_of, SkipSays, StandsSays, CallSays, GroupSays, GroupReady};

use base::LONGEST;
use scanning::{
    ANSWER_SIZE, FOUND_AT, LENGTHS_AT, NOTES_AT, ROW_SIZE, Refusal, RowKind, START_AT, TRIALS_AT,
};

// the most bytes of a pattern's rows
pub const ROWS_SIZE: usize = ROW_SIZE * base::ROW;

// the first number of 4 bytes that is negative in C
const NEGATIVE: usize = 1 << 31;

// where the gap before a first group stands while the scan runs: the start, before the lengths
const GAP_AT: usize = LENGTHS_AT - 1;

// An element of a pattern: a string, as the ends of its part of the values; a fixed filler with its length; a free filler.
// kept: a part's ends as document 01 (F6) names them; a Range is no Copy, and an element is handed on by value
#[derive(Clone, Copy)]
pub enum Element {
    Part(usize, usize),
    Fixed(usize),
    Free,
}

// A pattern of good rows; its strings are parts of the values.
#[derive(Clone, Copy)]
struct Pattern<'a> {
    values: &'a [u8],
    rows: &'a [[u8; ROW_SIZE]],
    ghost ready: { GoodPattern values.now rows.now } by { good_pattern_prop values.now rows.now },
}

// Why an element fails at a place: other bytes stand there, so that its group moves on; or too few bytes are left, so that the scan ends.
#[derive(Clone, Copy, PartialEq, Eq)]
enum Failure {
    Other,
    Few,
}

// A group that failed at a place: why, and after how many trials.
#[derive(Clone, Copy)]
struct Failed {
    failure: Failure,
    trials: usize,
}

// four bytes of a row as a number, low byte first
fn number4(row: &[u8; ROW_SIZE], at: usize) -> usize
    requires { at + 3 < 12 }
    ensures { (result ≡ Call·number4 row.now at) × (result < 2 ^ 32) }
{
    u32::from_le_bytes([row[at], row[at + 1], row[at + 2], row[at + 3]]) as usize
}

// the element of a row, one of no known kind read as a free filler
fn row_element(row: &[u8; ROW_SIZE]) -> Element
    ensures { result ≡ scan_row_at row.now 0 }
{
    match RowKind::of(row[0]).unwrap_or(RowKind::Free) {
        RowKind::String => Element::Part(number4(row, 4), number4(row, 8)),
        RowKind::Fixed => Element::Fixed(number4(row, 4)),
        RowKind::Free => Element::Free,
    }
}

// the test of a string at the start of rest
fn test_string(rest: &[u8], word: &[u8]) -> Result<Option<usize>, Failure>
    ensures { result ≡ test_of (string word.now) rest.now }
{
    if rest.len() < word.len() {
        return Err(Failure::Few);
    }
    if search::begins_with(rest, word) {
        Ok(Some(word.len()))
    } else {
        Err(Failure::Other)
    }
}

// The test of an element at the start of rest: the length of its piece, or none for a free filler, which is not tested.
fn test_element(values: &[u8], e: Element, rest: &[u8]) -> Result<Option<usize>, Failure>
    requires { RowGood values.now e }
    ensures { result ≡ test_of (scan_element values.now e) rest.now }
{
    match e {
        Element::Part(from, to) => test_string(rest, &values[from..to]),
        Element::Fixed(n) => {
            if rest.len() < n {
                Err(Failure::Few)
            } else {
                Ok(Some(n))
            }
        }
        Element::Free => Ok(None),
    }
}

// The test of a group at a place: the elements from row g on, one after the other, up to a free filler or the pattern's end. Where the first of
// them, of one byte, is known to pass, it isn't tested again. A group that passed answers that filler's row or the end, and where its last piece
// ends.
// kept: known is what `stands` answers, one byte passed or none; and rows go by index, since the answer and the trials are told by it
fn test_group(
    reference: &[u8],
    pattern: Pattern,
    g: usize,
    place: usize,
    known: bool,
) -> Result<(usize, usize), Failed>
    requires group_ready { GroupReady reference.now pattern.values.now (concat pattern.rows.now) (length pattern.rows.now) g place (cond known 1 0) }
    ensures { let p = pattern.entry in GroupSays reference.now p.values.now (concat p.rows.now) (length p.rows.now) g place result }
{
    let passed = usize::from(known);
    let mut at = place + passed;
    for i in g + passed..pattern.rows.len() {
        match test_element(
            pattern.values,
            row_element(&pattern.rows[i]),
            &reference[at..],
        ) {
            Ok(Some(n)) => at += n,
            Ok(None) => return Ok((i, at)),
            Err(failure) => {
                return Err(Failed {
                    failure,
                    trials: i - g + 1,
                });
            }
        }
    }
    Ok((pattern.rows.len(), at))
}

// how many places of rest from the first on a group can pass over because its first element, a string, fails there: each is one trial
fn pass_places(values: &[u8], e: Element, rest: &[u8]) -> usize
    requires { RowGood values.now e }
    ensures { SkipSays rest.now (scan_element values.now e) result }
{
    match e {
        Element::Part(from, to) => search::passed(rest, &values[from..to]),
        Element::Fixed(_) | Element::Free => 0,
    }
}

// whether the element is a string of one byte that stands at the start of rest: the quick way through the commonest groups
fn stands(values: &[u8], e: Element, rest: &[u8]) -> bool
    requires { RowGood values.now e }
    ensures { StandsSays rest.now (scan_element values.now e) result }
{
    match e {
        Element::Part(from, to) => {
            if to - from != 1 || rest.is_empty() {
                return false;
            }
            rest[0] == values[from]
        }
        Element::Fixed(_) | Element::Free => false,
    }
}

// The scan, group by group. The answer holds the lengths that don't depend on the place; each turn passes over places, tests a group and, where all
// of it passed, writes the gap before it, the start at first and then the length of a free filler. A last free filler reaches the end.
// kept: a loop: a turn goes on by as many places, or to the group, that its test says; no range or chain has such turns
fn run(reference: &[u8], pattern: Pattern, answer: &mut [u32; ANSWER_SIZE])
    requires bounds { (length reference.now ≤ 1024) × (0 < length pattern.rows.now) }
    requires answer_value { answer.old ≡
        row_answer (length pattern.rows.now) (0 ∷ sizes_at (concat pattern.rows.now) (length pattern.rows.now) 0) }
    ensures { let p = pattern.entry in
        answer.new ≡ answer_numbers 0 (scan (pattern_of p.values.now (concat p.rows.now) (length p.rows.now)) reference.now) }
{
    let mut g: usize = 0;
    let mut from: usize = 0;
    let mut place: usize = 0;
    let mut trials: usize = 0;
    loop {
        let e = row_element(&pattern.rows[g]);
        let k = pass_places(pattern.values, e, &reference[place..]);
        place += k;
        trials += k;
        let known = stands(pattern.values, e, &reference[place..]);
        match test_group(reference, pattern, g, place, known) {
            Err(failed) => {
                trials += failed.trials;
                if failed.failure == Failure::Few || place == reference.len() {
                    return fail(trials, answer);
                }
                place += 1;
            }
            Ok((j, end)) => {
                answer[GAP_AT + g] = (place - from) as u32;
                trials += j - g;
                if j == pattern.rows.len() {
                    return finish(trials, answer);
                }
                g = j + 1;
                if g == pattern.rows.len() {
                    answer[GAP_AT + g] = (reference.len() - end) as u32;
                    return finish(trials, answer);
                }
                from = end;
                place = end;
            }
        }
    }
}

// the length of an element's piece, a free filler's left 0
fn length_of(e: Element) -> usize
    requires { RowSized e }
    ensures { (result ≡ size_of e) × (result < 2 ^ 32) }
{
    match e {
        Element::Part(from, to) => to - from,
        Element::Fixed(n) => n,
        Element::Free => 0,
    }
}

// the answer with the lengths of a pattern's pieces, behind the start's place
fn fill(pattern: Pattern, answer: &mut [u32; ANSWER_SIZE])
    ensures { let p = pattern.entry in
        answer.new ≡ row_answer (length p.rows.now) (0 ∷ sizes_at (concat p.rows.now) (length p.rows.now) 0) }
{
    *answer = [0u32; ANSWER_SIZE];
    for (i, row) in pattern.rows.iter().enumerate() {
        answer[LENGTHS_AT + i] = length_of(row_element(row)) as u32;
    }
}

// the answer of a scan that found no split
fn fail(trials: usize, answer: &mut [u32; ANSWER_SIZE])
    requires { trials < 2 ^ 32 }
    ensures { answer.new ≡ split_numbers none trials 0 }
{
    *answer = [0u32; ANSWER_SIZE];
    answer[TRIALS_AT] = trials as u32;
}

// the answer of a scan that found one: the start moves from before the lengths to its own place
fn finish(trials: usize, answer: &mut [u32; ANSWER_SIZE])
    requires { trials < 2 ^ 32 }
    ensures { answer.new ≡ set (set (set (set answer.old 0 1) 1 (get_or answer.old 3 0)) 2 trials) 3 0 }
{
    let start = answer[GAP_AT];
    answer[FOUND_AT] = 1;
    answer[START_AT] = start;
    answer[TRIALS_AT] = trials as u32;
    answer[NOTES_AT] = 0;
}

// the scan by good rows whose lengths stand in the answer
// kept: reference and pattern come apart, as document 01's scan has them; the clause on the reference's length bounds the trials
fn scan_filled(reference: &[u8], pattern: Pattern, answer: &mut [u32; ANSWER_SIZE])
    requires reference_len_bound { length reference.now ≤ 1024 }
    requires answer_value { answer.old ≡
        row_answer (length pattern.rows.now) (0 ∷ sizes_at (concat pattern.rows.now) (length pattern.rows.now) 0) }
    ensures { let p = pattern.entry in
        answer.new ≡ answer_numbers 0 (scan (pattern_of p.values.now (concat p.rows.now) (length p.rows.now)) reference.now) }
{
    if pattern.rows.is_empty() {
        finish(0, answer);
    } else {
        run(reference, pattern, answer);
    }
}

// The scan by a pattern of count rows. Its answer is that of the definition.
pub fn scan_into(
    reference: &[u8],
    values: &[u8],
    rows: &[u8],
    count: usize,
    answer: &mut [u32; ANSWER_SIZE],
)
    requires good_rows { GoodRows values.now rows.now count }
    requires reference_len_bound { length reference.now ≤ 1024 }
    ensures { answer.new ≡ answer_numbers 0 (scan (pattern_of values.now rows.now count) reference.now) }
{
    let (rows, _) = rows[..ROW_SIZE * count].as_chunks();
    let pattern = Pattern { values, rows };
    fill(pattern, answer);
    scan_filled(reference, pattern, answer);
}

// whether a row is an element
// kept: a truth, and no element: row_element makes it, here and in the rows that are known to have one
fn is_element(values: &[u8], row: &[u8; ROW_SIZE]) -> bool
    ensures { (result ≡ is_element values.now row.now) × (result ≡ true → RowGood values.now (scan_row_at row.now 0)) }
{
    RowKind::of(row[0]).is_some()
        && match row_element(row) {
            Element::Part(from, to) => from <= to && to <= values.len(),
            Element::Fixed(n) => n < NEGATIVE,
            Element::Free => true,
        }
}

// Whether all rows are elements: their lengths stand in the answer then.
// kept: its loop is fill's with a test, which scan_into's rows needn't pass; tested first and then filled, rows take 14 to 17 percent more
// instructions in a scan of 6 or 24 bytes
fn read_rows(values: &[u8], rows: &[[u8; ROW_SIZE]], answer: &mut [u32; ANSWER_SIZE]) -> bool
    requires { length rows.now ≤ 20 }
    ensures { RowsSay values.now rows.now answer.new result }
{
    *answer = [0u32; ANSWER_SIZE];
    for (i, row) in rows.iter().enumerate() {
        if !is_element(values, row) {
            return false;
        }
        answer[LENGTHS_AT + i] = length_of(row_element(row)) as u32;
    }
    true
}

// the scan on what a call was lent, unless it is turned down
fn scan_rows(
    reference: &[u8],
    values: &[u8],
    elements: &[u8],
    answer: &mut [u32; ANSWER_SIZE],
) -> Result<(), Refusal>
    ensures { CallSays (scan_call reference.now values.now elements.now) result answer.new }
{
    if LONGEST < reference.len() {
        return Err(Refusal::LongReference);
    }
    if ROWS_SIZE < elements.len() {
        return Err(Refusal::ManyElements);
    }
    let (rows, cut) = elements.as_chunks();
    if !cut.is_empty() || !read_rows(values, rows, answer) {
        return Err(Refusal::NoElement);
    }
    scan_filled(reference, Pattern { values, rows }, answer);
    Ok(())
}

// The scan call: 0 and the scan's answer, or the number of why it is turned down and no split.
pub fn strigol_scan(
    reference: &[u8],
    values: &[u8],
    elements: &[u8],
    answer: &mut [u32; ANSWER_SIZE],
) -> u32
    ensures { ScanPromise reference.now values.now elements.now result answer.new }
{
    match scan_rows(reference, values, elements, answer) {
        Ok(()) => 0,
        Err(refusal) => {
            fail(0, answer);
            refusal.number()
        }
    }
}
