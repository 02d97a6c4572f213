// Three calls of the register: opening it, a line offered, and a line handed out by its place. Each reads the register whole before it changes it or
// looks for a line; opening judges the currency before that.
// Assumes nothing.
#![tactic(auto)]

ghost use Rattle.std.specs.Prelude.{true, ◌∷◌, ◌≡◌, ◌+◌, ◌≤◌, length, take};
ghost use Rattle.encoding.specs.Splices.{splice};
ghost use Rattle.register.specs.Calls.{offer_call, open_call};
ghost use Rattle.register.specs.Claims.{LinePromise, OfferPromise, OpenPromise, buffer_back, line_back};
ghost use Rattle.register.specs.Line.{is_currency};
ghost use Rattle.register.specs.Refusals.{number_of};
ghost use Rattle.register_calls.specs.Putting.{LineHeld, OfferJudged, WrittenOut, stored_by};
ghost use Rattle.register_reading.specs.Reading.{Unopened};

use arrayvec::ArrayVec;
use card_reader::keys;
use register::{CURRENCY, LINE_SIZE, LINES, Refusal, SLOT, number_of};
use register_lines::{Fields, Form, form_of, is_currency};
use register_reading::{line_length, read_keys, read_opened, read_register, slot_at};

// tells a register its house currency
// kept: a slice with clauses, here and below: `&[u8; CURRENCY]` would take a test of its length beside is_currency, which has that test
fn tell_house(buffer: &mut [u8], currency: &[u8])
    requires { (length currency.now ≡ 3) × (3 ≤ length buffer.old) }
    ensures { buffer.new ≡ splice buffer.old 0 currency.now }
{
    buffer[..CURRENCY].copy_from_slice(currency);
}

// a comma and a currency, from a place on
fn write_currency(buffer: &mut [u8], at: usize, currency: &[u8])
    requires { at + length currency.now + 1 ≤ length buffer.old }
    ensures { buffer.new ≡ splice buffer.old at (44 ∷ currency.now) }
{
    buffer[at] = b',';
    buffer[at + 1..at + 1 + currency.len()].copy_from_slice(currency);
}

// writes a currency behind each of the n lines of a register that isn't opened
// kept: by the slot's place. Tried: chunks_exact_mut(SLOT).take(n): `returns` is left, the invariant names the slots lent, not what they came to
fn write_out(buffer: &mut [u8], n: usize, currency: &[u8])
    requires { Unopened buffer.old n × (is_currency currency.now ≡ true) }
    ensures { WrittenOut buffer.old currency.now buffer.new }
{
    for k in 0..n {
        let at = slot_at(k);
        let size = line_length(&buffer[at..at + SLOT]);
        write_currency(buffer, at + size, currency);
    }
}

// opens a register of n lines that isn't opened
fn open_old(buffer: &mut [u8], n: usize, currency: &[u8])
    requires { Unopened buffer.old n × (is_currency currency.now ≡ true) }
    ensures { buffer_back 0 buffer.new ≡ open_call buffer.old currency.now }
{
    write_out(buffer, n, currency);
    tell_house(buffer, currency);
}

// opens the register, or opens it again: then the house currency alone changes
fn open(buffer: &mut [u8], currency: &[u8]) -> Result<(), Refusal>
    ensures { buffer_back (number_of result) buffer.new ≡ open_call buffer.old currency.now }
{
    if !is_currency(currency) {
        return Err(Refusal::BadCurrency);
    }
    let mut keys = ArrayVec::new();
    match read_register(buffer, &mut keys).ok_or(Refusal::BadBuffer)? {
        Fields::Five => tell_house(buffer, currency),
        Fields::Four => open_old(buffer, keys.len(), currency),
    }
    Ok(())
}

// Opens the register, or opens it again.
pub fn strigol_register_open(buffer: &mut [u8], currency: &[u8]) -> u32
    ensures { OpenPromise buffer.old currency.now (buffer_back result buffer.new) }
{
    number_of(open(buffer, currency))
}

// the form of a line offered to a register whose lines have these keys; or the lowest number's refusal, of those that apply
fn judge(line: &[u8], held: &ArrayVec<u64, LINES>) -> Result<Form, Refusal>
    ensures { OfferJudged line.now held.now.items result }
{
    let form = form_of(line).ok_or(Refusal::BadLine)?;
    let key = keys::key_of(&line[..form.contract]);
    if held.as_slice().contains(&key) {
        return Err(Refusal::ContractHeld);
    }
    if held.is_full() {
        return Err(Refusal::Full);
    }
    Ok(form)
}

// a line from a place on, and behind one of four fields the house currency
fn put_stored(buffer: &mut [u8], at: usize, line: &[u8], fields: Fields)
    requires { (3 ≤ at) × (at + length (stored_by fields (take 3 buffer.old) line.now) ≤ length buffer.old) }
    ensures { buffer.new ≡ splice buffer.old at (stored_by fields (take 3 buffer.old) line.now) }
{
    buffer[at..at + line.len()].copy_from_slice(line);
    if fields == Fields::Four {
        let mut house = [0; CURRENCY];
        house.copy_from_slice(&buffer[..CURRENCY]);
        write_currency(buffer, at + line.len(), &house);
    }
}

// a line offered to the register
fn offer(buffer: &mut [u8], line: &[u8]) -> Result<(), Refusal>
    ensures { buffer_back (number_of result) buffer.new ≡ offer_call buffer.old line.now }
{
    let mut keys = ArrayVec::new();
    read_keys(buffer, &mut keys)?;
    let form = judge(line, &keys)?;
    put_stored(buffer, slot_at(keys.len()), line, form.fields);
    Ok(())
}

// Offers a line to the register.
pub fn strigol_register_offer(buffer: &mut [u8], line: &[u8]) -> u32
    ensures { OfferPromise buffer.old line.now (buffer_back result buffer.new) }
{
    number_of(offer(buffer, line))
}

// the line of a place, an empty one where none stands
fn held_line(buffer: &[u8], place: u64) -> Result<&[u8], Refusal>
    ensures { LineHeld buffer.now place result }
{
    let register = read_opened(buffer)?;
    if place < register.lines as u64 {
        Ok(register.line(place as usize))
    } else {
        Ok(&[])
    }
}

// Hands out the line of a place.
pub fn strigol_register_line(
    buffer: &[u8],
    place: u64,
    line: &mut [u8; LINE_SIZE],
    length: &mut u32,
) -> u32
    ensures { LinePromise buffer.now place (line_back result line.new length.new) }
{
    *line = [0; LINE_SIZE];
    *length = 0;
    match held_line(buffer, place) {
        Ok(held) => {
            line[..held.len()].copy_from_slice(held);
            *length = held.len() as u32;
            0
        }
        Err(refusal) => refusal.number(),
    }
}
