// The store's cells: whether they keep their rules, where their strings lie, and how a string is set, to new bytes or to a piece of another, or a
// stretch of it replaced.
// Each contract is an equation with the definitions of the crates encoding and calls.
// kept: the store is the caller's bytes, by the C interface; so these are functions on it and not methods of a struct, and ask for StoreGood
// kept: a place is a number under 32 by a clause: a type for it would be made of a byte of the table and opened again at each use
#![tactic(auto)]

pub mod spans;

ghost use Rattle.std.specs.Prelude.{◌++◌, ◌≡◌, ◌+◌, ◌*◌, ◌-◌, ◌<◌, ◌≤◌, length, take, drop, replicate};
ghost use Rattle.encoding.specs.BufferLaws.{StoreGood, store_with};
ghost use Rattle.encoding.specs.Buffers.{store_size, cell_keeps, store_keeps};
ghost use Rattle.encoding.specs.Numerals.{in_bytes};
ghost use Rattle.encoding.specs.Splices.{splice};
ghost use Rattle.store.specs.Clauses.{string_of, string_replaced, ended_anew, Putting, PuttingPiece, Replacing, Started};
ghost use Rattle.store.specs.Clauses.{started_number};

use base::{LONGEST, STRINGS};
use encoding::{CELL_SIZE, STORE_SIZE};

// Whether the cell at a place keeps its rules: a length up to 1,024, and zeros behind the string.
fn cell_keeps(store: &[u8], at: usize) -> bool
    requires { at + 1026 ≤ length store.now }
    ensures { result ≡ cell_keeps store.now at }
{
    let n = spans::number2(store, at);
    if n > LONGEST {
        return false;
    }
    let from = at + (2 + n);
    let to = at + CELL_SIZE;
    spans::are_zero(&store[from..to])
}

// Whether a store is good: long enough, and each cell keeps its rules.
// kept: by place, as store_keeps goes: of cells cut by as_chunks, as scan cuts rows, a law more would say that each is the store's bytes there
pub fn keeps(store: &[u8]) -> bool
    ensures { result ≡ store_keeps store.now }
{
    if store.len() < STORE_SIZE {
        return false;
    }
    (0..STRINGS).all(|place| cell_keeps(store, CELL_SIZE * place))
}

// Where the string with this place in the memory begins.
pub fn string_start(place: usize) -> usize
    requires { place < 32 }
    ensures { result ≡ 1026 * place + 2 }
{
    CELL_SIZE * place + 2
}

// How long the string with this place is.
pub fn string_length(store: &[u8], place: usize) -> usize
    requires store_good { StoreGood store.now }
    requires place_bound { place < 32 }
    ensures { (result ≡ length (string_of store.now place)) × (result ≤ 1024) }
{
    spans::number2(store, CELL_SIZE * place)
}

// The string with this place.
pub fn string(store: &[u8], place: usize) -> &[u8]
    requires store_good { StoreGood store.now }
    requires place_bound { place < 32 }
    ensures { (result.now ≡ string_of store.now place) × (length result.now ≤ 1024) }
{
    let start = string_start(place);
    &store[start..start + string_length(store, place)]
}

// Writes a length into its two bytes at a place.
// kept: put4 of scan_statement writes the four bytes of a u32 so: each is one call, of a type of its own
// kept: put_number of symbols goes byte by byte, for any size, in a crate of the deck: a run, which is made of this one, needs none of those
fn set_length(store: &mut [u8], at: usize, n: usize)
    requires { (at + 1 < length store.old) × (n ≤ 1024) }
    ensures { store.new ≡ splice store.old at (in_bytes 2 n) }
{
    spans::write(store, at, &(n as u16).to_le_bytes());
}

// Ends a string anew: zeros where it was longer, and its length.
fn set_end(store: &mut [u8], place: usize, old: usize, new: usize)
    requires place_bound { (place < 32) × ((old ≤ 1024) × (new ≤ 1024)) }
    requires store_size_in_bounds { store_size ≤ length store.old }
    ensures { store.new ≡ ended_anew store.old place old new }
{
    let start = string_start(place);
    spans::blank(store, start + new, start + old);
    set_length(store, CELL_SIZE * place, new);
}

// Sets the string with this place.
pub fn put(store: &mut [u8], place: usize, v: &[u8])
    requires { Putting store.old place v.now }
    ensures { store.new ≡ store_with store.old place v.now }
{
    let old = string_length(store, place);
    spans::write(store, string_start(place), v);
    set_end(store, place, old, v.len());
}

// Replaces the bytes from..to of the string with this place. Where its length stays, only v is written; else the bytes behind move too, and the
// string is ended anew.
pub fn replace(store: &mut [u8], place: usize, from: usize, to: usize, v: &[u8])
    requires { Replacing store.old place from to v.now }
    ensures { store.new
        ≡ store_with store.old place (string_replaced (string_of store.old place) from to v.now) }
{
    let old = string_length(store, place);
    let start = string_start(place);
    let at = start + from;
    let new = from + v.len() + (old - to);
    if new == old {
        spans::write(store, at, v);
        return;
    }
    spans::slide(store, start + to, at + v.len(), old - to);
    spans::write(store, at, v);
    set_end(store, place, old, new);
}

// Sets the string with this place to a piece of the one with place `of`: its n bytes from a place on.
pub fn put_piece(store: &mut [u8], place: usize, of: usize, from: usize, n: usize)
    requires { PuttingPiece store.old place of from n }
    ensures { store.new ≡ store_with store.old place (take n (drop from (string_of store.old of))) }
{
    let old = string_length(store, place);
    spans::slide(store, string_start(of) + from, string_start(place), n);
    set_end(store, place, old, n);
}

// Zeroes the store's cells.
pub fn clear(store: &mut [u8])
    requires { store_size ≤ length store.old }
    ensures { store.new ≡ replicate store_size 0 ++ drop store_size store.old }
{
    spans::blank(store, 0, STORE_SIZE);
}

// Starts a store: zeroes it, unless it is too small. None then, and it stays as it was.
// kept: an Option of nothing: there is one way to fail, whose number the call says
pub fn start_store(store: &mut [u8]) -> Option<()>
    ensures { Started store.old (started_number result) store.new }
{
    if store.len() < STORE_SIZE {
        return None;
    }
    clear(store);
    Some(())
}
