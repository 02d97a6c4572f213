// The register in a buffer: whether it keeps its rules and is opened, how many lines it holds, and the contracts of these lines as keys, numbers of
// 64 bits.
// Assumes nothing.
#![tactic(auto)]

ghost use Rattle.std.specs.Prelude.{false, fold, ◌==◌, ◌||◌, ◌≡◌, ◌*◌, ◌<◌, drop, length};
ghost use Rattle.std.specs.List.{suffix_len};
ghost use Rattle.arrayvec.specs.ArrayVec.{array_vec_len};
ghost use Rattle.base.specs.Lists.{all, is_zero};
ghost use Rattle.register.specs.Buffer.{header_size, lines_in, register_in, slot_size};
ghost use Rattle.register.specs.Register.{line_at, most_lines};
ghost use Rattle.register_reading.specs.Opened.{OpenedRead};
ghost use Rattle.register_reading.specs.Reading.{SlotsHold, Marked, KeyNoted, KeysRead, Placed, RegisterRead, Trimmed};
ghost use Rattle.register_reading.specs.Reading.{header_fields, slot_at, slot_key, slots_hold};

use arrayvec::ArrayVec;
use card_reader::keys;
use register::{CURRENCY, HEADER, LINES, Refusal, SIZE, SLOT};
use register_lines::{Fields, form_of, is_currency};
use store::spans;

mod opened;

pub use opened::Opened;

// how many marks tell that a key may be held already: a prime, so that contracts in a row have marks of their own
const MARKS: usize = 4093;

// whether a key is among others; all are compared, so that this becomes vector code
// kept: contains, which leaves at the first that is the same, took twice as long over contracts made against the marks
pub fn is_among(keys: &[u64], key: u64) -> bool
    ensures { result ≡ fold (λ found held. found || held == key) false keys.now }
{
    keys.iter()
        .fold(false, |found, held| found | (*held == key))
}

// Notes a key behind the others and marks it, unless it is one of them. It is compared with them only where its mark is there.
fn note(keys: &mut ArrayVec<u64, LINES>, marks: &mut [bool; MARKS], key: u64) -> bool
    requires { Marked keys.old.items marks.old × (array_vec_len keys.old < most_lines) }
    ensures { KeyNoted keys.old.items key result keys.new.items marks.new }
{
    let place = key as usize % MARKS;
    if marks[place] && is_among(keys.as_slice(), key) {
        return false;
    }
    marks[place] = true;
    keys.push(key);
    true
}

// how many zeros stand at the end of a slot
fn zeros_behind(slot: &[u8]) -> usize
    ensures { result ≡ suffix_len is_zero slot.now }
{
    slot.iter().rev().take_while(|b| **b == 0).count()
}

// how many bytes a slot has before them: those of its line, where it keeps its rule
pub fn line_length(slot: &[u8]) -> usize
    ensures { Trimmed slot.now result }
{
    slot.len() - zeros_behind(slot)
}

// the key of the contract in a slot whose line should have so many fields; None where the slot breaks its rule
fn slot_key(slot: &[u8], fields: Fields) -> Option<u64>
    ensures { result ≡ slot_key fields slot.now }
{
    let line = &slot[..line_length(slot)];
    let form = form_of(line)?;
    if form.fields != fields {
        return None;
    }
    Some(keys::key_of(&line[..form.contract]))
}

// whether nothing stands behind the lines, where slot k begins with zero: all behind it must be zero
fn ends_at(slots: &[u8], k: usize) -> bool
    requires { (length slots.now ≡ slot_size * most_lines) × (k < most_lines) }
    ensures { result ≡ all is_zero (drop (slot_size * k) slots.now) }
{
    spans::are_zero(&slots[SLOT * k..])
}

// whether the slots keep their rules, with lines of so many fields, whose keys these then are
// kept: keys is lent to be filled, here and below: answered by value, a call on an empty register took 1.8 to 2.0 times as long, on a full one 1.06
fn read_slots(slots: &[u8], fields: Fields, keys: &mut ArrayVec<u64, LINES>) -> bool
    requires { length slots.now ≡ slot_size * most_lines }
    ensures { SlotsHold (slots_hold fields slots.now) (lines_in most_lines slots.now) keys.new.items result }
{
    keys.clear();
    let mut marks = [false; MARKS];
    for (k, slot) in slots.chunks_exact(SLOT).enumerate() {
        if slot[0] == 0 {
            return ends_at(slots, k);
        }
        let Some(key) = slot_key(slot, fields) else {
            return false;
        };
        if !note(keys, &mut marks, key) {
            return false;
        }
    }
    true
}

// how many fields lines have under this header: five where it has a house currency, four where it is all zeros; None where it is neither
fn header_fields(header: &[u8]) -> Option<Fields>
    requires { length header.now ≡ header_size }
    ensures { result ≡ header_fields header.now }
{
    if !spans::are_zero(&header[CURRENCY..]) {
        None
    } else if spans::are_zero(&header[..CURRENCY]) {
        Some(Fields::Four)
    } else if is_currency(&header[..CURRENCY]) {
        Some(Fields::Five)
    } else {
        None
    }
}

// how many fields the lines of the register in a buffer have, and their keys; None where the buffer is too small or against the rules
pub fn read_register(buffer: &[u8], keys: &mut ArrayVec<u64, LINES>) -> Option<Fields>
    ensures { RegisterRead buffer.now keys.new.items result }
{
    if buffer.len() < SIZE {
        return None;
    }
    let fields = header_fields(&buffer[..HEADER])?;
    read_slots(&buffer[HEADER..SIZE], fields, keys).then_some(fields)
}

// the keys of an opened register's lines; any other buffer is refused
#[tactic(auto, using(crate::specs::ReadLaws::keys_ready, crate::specs::ReadLaws::old_refused, crate::specs::ReadLaws::broken_refused))]
pub fn read_keys(buffer: &[u8], keys: &mut ArrayVec<u64, LINES>) -> Result<(), Refusal>
    ensures { KeysRead buffer.now keys.new.items result }
{
    match read_register(buffer, keys) {
        Some(Fields::Five) => Ok(()),
        Some(Fields::Four) | None => Err(Refusal::BadBuffer),
    }
}

// the opened register in a buffer; any other buffer is refused
pub fn read_opened(buffer: &[u8]) -> Result<Opened<'_>, Refusal>
    ensures { OpenedRead buffer.now result }
{
    let mut keys = ArrayVec::new();
    read_keys(buffer, &mut keys)?;
    Ok(Opened {
        buffer,
        lines: keys.len(),
    })
}

// where the slot of a place begins
pub fn slot_at(place: usize) -> usize
    requires { place < most_lines }
    ensures { result ≡ slot_at place }
{
    HEADER + SLOT * place
}

// the line of a place, in a register that has one there
pub fn line_in(buffer: &[u8], place: usize) -> &[u8]
    requires { Placed buffer.now place }
    ensures { result.now ≡ line_at (register_in buffer.now).lines place }
{
    let at = slot_at(place);
    let slot = &buffer[at..at + SLOT];
    &slot[..line_length(slot)]
}
