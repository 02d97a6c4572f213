// Spans of bytes: a number read, read over, written, a line written, zeroed, moved, copied and turned, and the record at a place of the input.
// A write's contract is one splice.
// kept: that a span lies in its slice is a clause of each function: the two meet for that one call
ghost use Rattle.std.specs.Prelude.{[], ◌∷◌, ◌++◌, reverse, ◌≡◌, ◌+◌, ◌-◌, ◌<◌, ◌≤◌, ◌^◌, eqb, length, take, drop, replicate};
ghost use Rattle.base.specs.Lists.{all};
ghost use Rattle.encoding.specs.Numerals.{numeral_at};
ghost use Rattle.encoding.specs.Splices.{splice};
ghost use Rattle.machine.specs.Step.{record_length};

use base::LONGEST;

// The number in the two bytes at a place, low byte first.
// kept: number8 and scan's number4 read eight and four bytes so: each is one call of the library, on a type of its own; of six, decoder's number6,
// there is none
pub fn number2(s: &[u8], at: usize) -> usize
    requires { at + 2 ≤ length s.now }
    ensures { (result ≡ numeral_at 2 s.now at) × (result < 2 ^ 16) }
{
    u16::from_le_bytes([s[at], s[at + 1]]) as usize
}

// The number in the eight bytes at a place, low byte first.
pub fn number8(s: &[u8], at: usize) -> u64
    requires { at + 8 ≤ length s.now }
    ensures { result ≡ numeral_at 8 s.now at }
{
    u64::from_le_bytes([
        s[at],
        s[at + 1],
        s[at + 2],
        s[at + 3],
        s[at + 4],
        s[at + 5],
        s[at + 6],
        s[at + 7],
    ])
}

// Whether all bytes of s are zero.
// kept: a fold that leaves no byte out becomes vector code: of 1,000 zeros in 27 ns, by `s.iter().all(|b| *b == 0)` in 530
pub fn are_zero(s: &[u8]) -> bool
    ensures { result ≡ all (λ b. eqb b 0) s.now }
{
    s.iter().fold(0, |seen, b| seen | *b) == 0
}

// Writes v over the bytes from a place on.
pub fn write(out: &mut [u8], at: usize, v: &[u8])
    requires { at + length v.now ≤ length out.old }
    ensures { out.new ≡ splice out.old at v.now }
{
    out[at..at + v.len()].copy_from_slice(v);
}

// Writes v and byte 10 behind it from a place on. Gives where they end.
pub fn put_line(out: &mut [u8], at: usize, v: &[u8]) -> usize
    requires { at + length v.now < length out.old }
    ensures { (out.new ≡ splice out.old at (v.now ++ (10 ∷ []))) × (result ≡ at + length v.now + 1) }
{
    write(out, at, v);
    let end = at + v.len();
    out[end] = b'\n';
    end + 1
}

// Zeroes the bytes from..to; none if to is not above from.
pub fn blank(out: &mut [u8], from: usize, to: usize)
    requires { (from ≤ length out.old) × (to ≤ length out.old) }
    ensures { out.new ≡ splice out.old from (replicate (to - from) 0) }
{
    if from < to {
        out[from..to].fill(0);
    }
}

// Moves n bytes of a string to another place; the two spans may overlap.
// kept: by way of an array it is one call of memmove, which takes half the time of copy_within where a thousand bytes move
pub fn slide(out: &mut [u8], from: usize, to: usize, n: usize)
    requires { (n ≤ 1024) × ((from + n ≤ length out.old) × (to + n ≤ length out.old)) }
    ensures { out.new ≡ splice out.old to (take n (drop from out.old)) }
{
    let mut moved = [0u8; LONGEST];
    let front = &mut moved[..n];
    front.copy_from_slice(&out[from..from + n]);
    write(out, to, front);
}

// Copies s, last byte first, to the front of a string's buffer.
// kept: by index it is one pass in vectors; copy_from_slice and reverse are two
pub fn copy_turned(s: &[u8], out: &mut [u8; LONGEST])
    requires { length s.now ≤ 1024 }
    ensures { out.new ≡ splice out.old 0 (reverse s.now) }
{
    let n = s.len();
    for i in 0..n {
        out[i] = s[n - 1 - i];
    }
}

// How long the record is that begins at a place of the input: to byte 10 or the end.
pub fn next_record(input: &[u8], from: usize) -> usize
    requires { from ≤ length input.now }
    ensures { result ≡ record_length (drop from input.now) }
{
    search::next_byte(input, b'\n', from) - from
}
