// What parsers leave behind while they parse a statement: the names mentioned, the rows of items and elements with their literal bytes; and the
// places of names known.
// Assumes nothing.
#![tactic(auto)]

pub mod known;
pub mod tags;

ghost use Rattle.std.specs.List.{position};
ghost use Rattle.std.specs.Prelude.{◌==◌, ◌≡◌, ◌+◌, ◌*◌, ◌≤◌, ◌<◌, length};
ghost use Rattle.base.specs.Current.{table_size};
ghost use Rattle.encoding.specs.Numerals.{in_bytes, biased};
ghost use Rattle.encoding.specs.Splices.{splice};
ghost use Rattle.encoding.specs.Meaning.{cell_meaning};
ghost use Rattle.encoding.specs.Table.{cell_bytes};
ghost use Rattle.numbers.specs.Numbers.{IntInRange};
ghost use Rattle.symbols.specs.Bounds.{far_enough};
ghost use Rattle.symbols.specs.Cells.{with_cell};
ghost use Rattle.symbols.specs.Clauses.{names_room, cursor_before_statement, NameNoted};
ghost use Rattle.symbols.specs.Elements.{with_element, with_literals};
ghost use Rattle.symbols.specs.Items.{with_item};
ghost use Rattle.symbols.specs.Environment.{key_place, keys_have};

use base::{ELEMENTS, ITEMS, LITERALS};
use encoding::cells::Cell;
use encoding::{ELEMENTS_AT, ITEMS_AT, LITERALS_AT, TABLE_CELL};
use numbers::Int;
use tags::Tag;

// how many names fit: one for each letter of a deck, since a name begins with a letter, and 32 to spare
pub const NAMES: usize = base::DECK + 32;

// what a constant has added in its cell
pub const BIAS: usize = encoding::BIAS as usize;

// where a reader is in the text; how many names, items, elements and literal bytes are written; the longest row of elements so far
// kept: items, elements, literals are no struct, here, in Known, Counts, Progress and Places: a reader counts up one or two, few places copy all
#[derive(Clone, Copy)]
pub struct Cursor {
    pub at: usize,
    pub names: usize,
    pub items: usize,
    pub elements: usize,
    pub literals: usize,
    pub longest: usize,
}

// the names that a statement mentions, in order of time; the cursor says how many
// kept: their count is the cursor's: readers answer one value with all counts, and what a failed one noted does not count
// kept: columns, since a pair of key and tag takes 16 bytes in place of 9, and GATEWAY.md bounds the stack
#[derive(Drop)]
pub struct Mentioned {
    pub keys: [u64; NAMES],
    pub tags: [Tag; NAMES],
}

impl Cursor {
    // before a statement of which nothing is read, behind so many items, elements and literal bytes
    pub fn before_statement(items: usize, elements: usize, literals: usize) -> Cursor
        ensures { result ≡ cursor_before_statement items elements literals }
    {
        Cursor {
            at: 0,
            names: 0,
            items,
            elements,
            literals,
            longest: 0,
        }
    }
}

impl Mentioned {
    // notes a name behind those mentioned before
    pub fn note(&mut self, c: Cursor, key: u64, tag: Tag) -> Cursor
        requires { c.names < names_room }
        ensures { NameNoted self.old c key tag self.new result }
    {
        let n = c.names;
        self.keys[n] = key;
        self.tags[n] = tag;
        Cursor { names: n + 1, ..c }
    }
}

// a constant as its cell has it
pub fn with_bias(z: Int) -> usize
    requires { IntInRange z }
    ensures { result ≡ biased z.value }
{
    numbers::biased(z) as usize
}

// writes a number into its so many bytes at a place, low byte first
pub fn put_number(table: &mut [u8], at: usize, size: usize, number: usize)
    requires { at + size ≤ length table.old }
    ensures { table.new ≡ splice table.old at (in_bytes size number) }
{
    let mut n = number;
    // kept: by index: to_le_bytes has 8 bytes, so callers would have to show that size is at most 8; a loop over iter_mut is as long, with a law more
    for i in 0..size {
        table[at + i] = (n % 256) as u8;
        n /= 256;
    }
}

// writes a cell at a place
pub fn put_cell(table: &mut [u8], at: usize, cell: Cell)
    requires { at + 8 ≤ length table.old }
    ensures { table.new ≡ splice table.old at (cell_bytes (cell_meaning cell)) }
{
    table[at] = cell.kind;
    table[at + 1] = cell.place;
    put_number(table, at + 2, 6, cell.value);
}

// writes cell k of a region with so many cells; of those behind the last one nothing
fn put_in(table: &mut [u8], from: usize, most: usize, k: usize, cell: Cell)
    requires { from + 8 * most ≤ length table.old }
    ensures { table.new ≡ with_cell table.old from most k (cell_meaning cell) }
{
    if k < most {
        put_cell(table, from + TABLE_CELL * k, cell);
    }
}

// writes item k; of those behind the last row nothing
pub fn put_item(table: &mut [u8], k: usize, cell: Cell)
    requires { table_size ≤ length table.old }
    ensures { table.new ≡ with_item table.old k (cell_meaning cell) }
{
    put_in(table, ITEMS_AT, ITEMS, k, cell);
}

// writes element k; of those behind the last row nothing
pub fn put_element(table: &mut [u8], k: usize, cell: Cell)
    requires { table_size ≤ length table.old }
    ensures { table.new ≡ with_element table.old k (cell_meaning cell) }
{
    put_in(table, ELEMENTS_AT, ELEMENTS, k, cell);
}

// writes literal bytes from byte l on; of those behind the last one nothing
pub fn put_literals(table: &mut [u8], l: usize, bytes: &[u8])
    requires table_size_in_bounds { table_size ≤ length table.old }
    requires l_le_far_enough { (l ≤ far_enough) × (length bytes.now ≤ far_enough) }
    ensures { table.new ≡ with_literals table.old l bytes.now }
{
    let from = l.min(LITERALS);
    let n = bytes.len().min(LITERALS - from);
    let at = LITERALS_AT + from;
    table[at..at + n].copy_from_slice(&bytes[..n]);
}

// the place of a key among others, if it is one of them
pub fn place(keys: &[u64], key: u64) -> Option<usize>
    ensures { result ≡ position (λ k. k == key) keys.now }
{
    keys.iter().position(|k| *k == key)
}

// the place of a key among others, how many there are if it is none of them
// kept: no Option: the row that the first pass reads has a byte for the place of a name not known yet; so key_place's definition counts too
pub fn key_place(keys: &[u64], key: u64) -> usize
    ensures { (result ≡ key_place key keys.now) × (result ≤ length keys.now) }
{
    place(keys, key).unwrap_or(keys.len())
}

// whether a key is one of others
pub fn has_key(keys: &[u64], key: u64) -> bool
    ensures { result ≡ keys_have key keys.now }
{
    keys.contains(&key)
}
