// Looking for a byte or a word in a text: where a byte stands next, whether a word stands at a place, and how many places from the first on
// it can't stand at. A byte is looked for by the kit's memchr; for a word whole blocks of places are passed by comparing two of its bytes at once.
// Assumes nothing.
#![tactic(auto)]

ghost use Rattle.std.specs.Prelude.{false, ◌≡◌, ℕ, ◌+◌, ◌≤◌, ◌<◌, length};
ghost use Rattle.base.specs.Lists.{begins};
ghost use Rattle.memchr.specs.Find.{IsFirstByte, is_byte};
ghost use Rattle.search.specs.Passing.{AgreesUntil, Both, PlacesSearchable, Without, NextPlace, NextByte, WordRoom, WordPasses};

use memchr::memchr;

// the bytes from which on memchr is the quicker way to a byte
const SHORT: usize = 32;

// how many bytes of rest and word are the same, from the first on
// kept: by index: position over a zip takes 6 percent more instructions for the benchmark's word of 4 bytes, 12 to 15 for words in short lines
fn same_until(rest: &[u8], word: &[u8]) -> usize
    requires { length word.now ≤ length rest.now }
    ensures { AgreesUntil rest.now word.now result }
{
    for i in 0..word.len() {
        if rest[i] != word[i] {
            return i;
        }
    }
    word.len()
}

// whether the bytes of rest begin with those of word
// kept: starts_with, and all over a zip, make a scan of short words take 1.1 to 1.3 times as long
pub fn begins_with(rest: &[u8], word: &[u8]) -> bool
    requires { length word.now ≤ length rest.now }
    ensures { result ≡ begins word.now rest.now }
{
    same_until(rest, word) == word.len()
}

// Whether at one of the places of two blocks the byte of fronts is first and that of backs is second. It leaves no turn out, so that it becomes
// vector code.
fn hit(fronts: &[u8], backs: &[u8], first: u8, second: u8) -> bool
    requires { length fronts.now ≡ length backs.now }
    ensures { result ≡ false → (j : ℕ) → j < length fronts.now → Both fronts.now backs.now first second j → ⊥ }
{
    fronts
        .iter()
        .zip(backs)
        .fold(false, |found, (front, back)| {
            found | ((*front == first) & (*back == second))
        })
}

// the places from one on, in blocks of this size, at which not both first stands and second stands span bytes behind it
// kept: a while: by step_by and find the closure would also test that a block fits, and none left would be a third end; chunks of both spans zipped
// would have to be counted back to the place
// kept: the parameters come apart: a struct of text, first and places spares no clause, which is of span and from, others at each turn of passed_word
fn pass_blocks<const SIZE: usize>(
    text: &[u8],
    first: u8,
    second: u8,
    span: usize,
    places: usize,
    from: usize,
) -> usize
    requires { PlacesSearchable text.now span places from × (0 < SIZE) }
    ensures { Without text.now first second span places from result }
{
    let mut k = from;
    while SIZE <= places - k {
        let behind = k + span;
        if hit(
            &text[k..k + SIZE],
            &text[behind..behind + SIZE],
            first,
            second,
        ) {
            return k;
        }
        k += SIZE;
    }
    k
}

// the next place from one on at which both stand, one place at a time
fn pass_bytes(
    text: &[u8],
    first: u8,
    second: u8,
    span: usize,
    places: usize,
    from: usize,
) -> Option<usize>
    requires { PlacesSearchable text.now span places from }
    ensures { NextPlace text.now first second span places from result }
{
    (from..places).find(|k| text[*k] == first && text[*k + span] == second)
}

// The next place from one on at which first stands and second stands span bytes behind it: by blocks as long as they may be, then by shorter ones.
fn next_place(
    text: &[u8],
    first: u8,
    second: u8,
    span: usize,
    places: usize,
    from: usize,
) -> Option<usize>
    requires { PlacesSearchable text.now span places from }
    ensures { NextPlace text.now first second span places from result }
{
    let a = pass_blocks::<128>(text, first, second, span, places, from);
    let b = pass_blocks::<32>(text, first, second, span, places, a);
    let e = pass_blocks::<8>(text, first, second, span, places, b);
    pass_bytes(text, first, second, span, places, e)
}

// Where a byte stands first. Where few bytes are left they are looked at one by one.
fn find_byte(rest: &[u8], byte: u8) -> Option<usize>
    ensures { IsFirstByte (is_byte byte) rest.now result }
{
    if rest.len() < SHORT {
        rest.iter().position(|b| *b == byte)
    } else {
        memchr(byte, rest)
    }
}

// where this byte stands next from a place on, or where the text ends
// kept: a place of the text, not of its rest, for card_reader and register_report (store and string_parser subtract); no Option: what is told ends there
pub fn next_byte(text: &[u8], byte: u8, from: usize) -> usize
    requires { from ≤ length text.now }
    ensures { NextByte text.now byte from result }
{
    match find_byte(&text[from..], byte) {
        Some(i) => from + i,
        None => text.len(),
    }
}

// The places of text from the first on at which word does not stand, though enough bytes do. Its first and its last byte are looked for;
// where both stand and the word does not, its first byte and the one that differed.
// kept: memmem takes 1.4 to 2.8 times as long on the benchmark's lines
fn passed_word(text: &[u8], word: &[u8]) -> usize
    requires { WordRoom text.now word.now }
    ensures { WordPasses text.now word.now result }
{
    let places = text.len() - (word.len() - 1);
    let first = word[0];
    let mut span = word.len() - 1;
    let mut k: usize = 0;
    while let Some(place) = next_place(text, first, word[span], span, places, k) {
        let m = same_until(&text[place..], word);
        if m == word.len() {
            return place;
        }
        span = m;
        k = place + 1;
    }
    places
}

// places of text from the first on at which word does not stand, though enough bytes do
pub fn passed(text: &[u8], word: &[u8]) -> usize
    ensures { WordPasses text.now word.now result }
{
    let n = word.len();
    if n == 1 {
        return next_byte(text, word[0], 0);
    }
    if n == 0 {
        return 0;
    }
    if text.len() < n {
        return 0;
    }
    passed_word(text, word)
}
