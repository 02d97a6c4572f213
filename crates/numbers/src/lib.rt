// Numbers and their text: the operators on numbers, comparisons, NUMERIC, NUMBER and STRING. A number is an i64 from -LIMIT to LIMIT.
// Assumes nothing.
#![tactic(auto)]

ghost use Rattle.std.specs.Prelude.{◌≡◌, ◌+◌, ◌≤◌, ◌<◌, ◌^◌, cond, pos, neg_ℤ, nat_abs, length, replicate};
ghost use Rattle.base.specs.Current.{current, limit};
ghost use Rattle.encoding.specs.Numerals.{biased, unbiased};
ghost use Rattle.encoding.specs.Table.{comparison_number};
ghost use Rattle.machine.specs.Expressions.{compared};
ghost use Rattle.values.specs.Conversion.{digit_of, decimal, digits, unsigned_part, is_numeric, number_of, sign_of};
ghost use Rattle.values.specs.Numbers.{is_negative, sum, difference, product, quotient};
ghost use Rattle.values.specs.Numbers as Numbers;
ghost use Rattle.numbers.specs.Numbers.{IntInRange, BothInRange, GivesInt, GivesNatural, NumberAnswers, if_small, comparison_meaning};
ghost use Rattle.numbers.specs.Text.{longest_text, DigitsStored, filled_text, TextRoom, TextWritable, TextWritten};

use base::LONGEST;
use classes::is_digit_or_blank;
use values::{Noted, Stop};

// numbers run from -LIMIT to LIMIT
pub const LIMIT: u64 = 8_388_607;

// what a number has added where a table or a state keeps it
const BIAS: i64 = encoding::BIAS as i64;

// a number of the language
// kept: that it is in range is no ghost field: unbiased makes one of any 6 bytes, of a table that need not keep its rules
// kept: is_negative, size and negate are functions, as the operators of two numbers are: as methods they would say no more
#[derive(Clone, Copy, PartialEq, Eq)]
pub struct Int {
    pub value: i64,
}

// the comparisons of IF, each by the number that a row of a table has for it
#[derive(Clone, Copy, PartialEq, Eq)]
pub enum Comparison {
    Equal = 1,
    Unequal = 2,
    Less = 3,
    Greater = 4,
    AtMost = 5,
    AtLeast = 6,
}

impl Comparison {
    // the number that a row's flag has for it
    #[tactic(auto, unfolding(encoding::specs::Table::comparison_number))]
    pub fn number(self) -> u8
        ensures { result ≡ comparison_number (comparison_meaning self) }
    {
        self as u8
    }
}

pub fn is_negative(z: Int) -> bool
    ensures { result ≡ is_negative z.value }
{
    z.value < 0
}

// how far z is from 0
pub fn size(z: Int) -> u64
    requires { nat_abs z.value < 2 ^ 63 }
    ensures { result ≡ nat_abs z.value }
{
    z.value.unsigned_abs()
}

pub fn negate(z: Int) -> Int
    requires { IntInRange z }
    ensures { GivesInt result (neg_ℤ z.value) }
{
    Int { value: -z.value }
}

// a natural number as a number
// kept: a function and no From, as biased and unbiased: each asks for a bound of its number. No TryFrom, which would test again: decimal_of has just
// tested what two of the three callers give, and the third gives a string's length
pub fn int_of(n: u64) -> Int
    requires { n ≤ limit }
    ensures { GivesInt result (pos n) }
{
    Int { value: n as i64 }
}

// z as a natural number, unless it is negative
pub fn natural(z: Int) -> Option<usize>
    ensures { GivesNatural result z.value }
{
    if is_negative(z) {
        None
    } else {
        Some(z.value.unsigned_abs() as usize)
    }
}

// the number that z is kept as
pub fn biased(z: Int) -> u64
    requires { IntInRange z }
    ensures { result ≡ biased z.value }
{
    (z.value + BIAS) as u64
}

// the number that is kept as n, of 6 bytes
pub fn unbiased(n: u64) -> Int
    requires { n < 2 ^ 48 }
    ensures { result.value ≡ unbiased n }
{
    Int {
        value: (n as i64) - BIAS,
    }
}

// the number z if it is in range
fn held(z: i64) -> Result<Noted<Int>, Stop>
    requires { nat_abs z < 2 ^ 63 }
    ensures { NumberAnswers result (Numbers.held current z) }
{
    if z.unsigned_abs() <= LIMIT {
        Ok(Noted::plain(Int { value: z }))
    } else {
        Err(Stop::OutOfRange)
    }
}

pub fn add(a: Int, b: Int) -> Result<Noted<Int>, Stop>
    requires { BothInRange a b }
    ensures { NumberAnswers result (sum current a.value b.value) }
{
    held(a.value + b.value)
}

pub fn subtract(a: Int, b: Int) -> Result<Noted<Int>, Stop>
    requires { BothInRange a b }
    ensures { NumberAnswers result (difference current a.value b.value) }
{
    held(a.value - b.value)
}

pub fn multiply(a: Int, b: Int) -> Result<Noted<Int>, Stop>
    requires { BothInRange a b }
    ensures { NumberAnswers result (product current a.value b.value) }
{
    held(a.value * b.value)
}

// the fraction is dropped
pub fn divide(a: Int, b: Int) -> Result<Noted<Int>, Stop>
    requires { BothInRange a b }
    ensures { NumberAnswers result (quotient current a.value b.value) }
{
    if b.value == 0 {
        return Err(Stop::ZeroDivisor);
    }
    held(a.value / b.value)
}

pub fn compare(c: Comparison, a: Int, b: Int) -> bool
    ensures { result ≡ compared (comparison_meaning c) a.value b.value }
{
    match c {
        Comparison::Equal => a.value == b.value,
        Comparison::Unequal => a.value != b.value,
        Comparison::Less => a.value < b.value,
        Comparison::Greater => b.value < a.value,
        Comparison::AtMost => a.value <= b.value,
        Comparison::AtLeast => b.value <= a.value,
    }
}

// what stands behind the sign, if there is one in front
fn unsigned_part(s: &[u8]) -> &[u8]
    ensures { result.now ≡ unsigned_part s.now }
{
    let signed = s.starts_with(b"+") || s.starts_with(b"-");
    &s[usize::from(signed)..]
}

pub fn is_numeric(s: &[u8]) -> bool
    ensures { result ≡ is_numeric s.now }
{
    let digits = unsigned_part(s);
    !digits.is_empty() && digits.iter().all(|b| is_digit_or_blank(*b))
}

// the digit that a byte stands for: a blank is a zero
fn digit_of(b: u8) -> u64
    ensures { (result ≡ digit_of b) × (result < 256) }
{
    if b < b'0' { 0 } else { u64::from(b - b'0') }
}

// the value of the digits, if it is at most LIMIT
pub fn decimal_of(digits: &[u8]) -> Option<u64>
    ensures { result ≡ if_small (decimal 0 digits.now) }
{
    let mut v = 0;
    for b in digits {
        v = v * 10 + digit_of(*b);
        if LIMIT < v {
            return None;
        }
    }
    Some(v)
}

pub fn number_of(s: &[u8]) -> Result<Noted<Int>, Stop>
    ensures { NumberAnswers result (number_of current s.now) }
{
    if !is_numeric(s) {
        return Ok(Noted {
            value: Int { value: 0 },
            notes: 1,
        });
    }
    let z = int_of(decimal_of(unsigned_part(s)).ok_or(Stop::OutOfRange)?);
    Ok(Noted::plain(if s[0] == b'-' { negate(z) } else { z }))
}

// how many digits v has
// kept: recursive, as put_digits, which document 01 has so (F10): digits is defined by the quotient; by checked_ilog10 it would want a law more
fn digit_count(v: u64) -> usize
    ensures { result ≡ length (digits v) }
{
    if v < 10 { 1 } else { digit_count(v / 10) + 1 }
}

// the digits of v from at on: the last one behind those of the quotient by ten; where they end
pub fn put_digits(v: u64, at: usize, out: &mut [u8]) -> usize
    requires { at + length (digits v) ≤ length out.old }
    ensures { DigitsStored out.old out.new at (digits v) result }
{
    if v < 10 {
        out[at] = b'0' + (v as u8);
        return at + 1;
    }
    let last = put_digits(v / 10, at, out);
    out[last] = b'0' + ((v % 10) as u8);
    last + 1
}

// byte, count times from at on; where they end
fn put_run(byte: u8, count: usize, at: usize, out: &mut [u8; LONGEST]) -> usize
    requires { at + count ≤ longest_text }
    ensures { DigitsStored out.old out.new at (replicate count byte) result }
{
    let end = at + count;
    out[at..end].fill(byte);
    end
}

// the sign of m, if it is negative, at 0; where it ends
fn put_sign(m: Int, out: &mut [u8; LONGEST]) -> usize
    ensures { DigitsStored out.old out.new 0 (sign_of m.value) result }
{
    if is_negative(m) {
        out[0] = b'-';
        return 1;
    }
    0
}

// the sign of m, byte count times, and the digits of m; where they end
fn put_text(m: Int, byte: u8, count: usize, out: &mut [u8; LONGEST]) -> usize
    requires { TextRoom m byte count }
    ensures { DigitsStored out.old out.new 0 (filled_text m.value byte count) result }
{
    let start = put_sign(m, out);
    let from = put_run(byte, count, start, out);
    put_digits(size(m), from, out)
}

// how many bytes STRING(m) has
fn plain_length(m: Int) -> usize
    requires { IntInRange m }
    ensures { result ≡ length (sign_of m.value) + length (digits (nat_abs m.value)) }
{
    let count = digit_count(size(m));
    if is_negative(m) { 1 + count } else { count }
}

// what fills in STRING(n,m)
fn fill_byte(n: Int) -> u8
    ensures { result ≡ cond (is_negative n.value) 32 48 }
{
    if is_negative(n) { b' ' } else { b'0' }
}

// STRING(n,m), at the start of out; bytes behind it may change
pub fn text_of(n: Int, m: Int, out: &mut [u8; LONGEST]) -> Result<Noted<usize>, Stop>
    requires { TextWritable n m out.old }
    ensures { TextWritten n.value m.value result out.old out.new }
{
    let asked = size(n) as usize;
    if asked == 0 {
        let length = put_text(m, b'0', 0, out);
        return Ok(Noted::plain(length));
    }
    if LONGEST < asked {
        return Err(Stop::TooLong);
    }
    let plain = plain_length(m);
    if plain <= asked {
        put_text(m, fill_byte(n), asked - plain, out);
        return Ok(Noted::plain(asked));
    }
    put_text(m, b'0', 0, out);
    Ok(Noted {
        value: asked,
        notes: 1,
    })
}
