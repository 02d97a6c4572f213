// Literals: their bytes go to the literal bytes of the table, behind those written before.
// Assumes nothing.
ghost use Rattle.std.specs.Prelude.{not, ℕ, ◌≤◌, ◌<◌, eqb, length, drop};
ghost use Rattle.base.specs.Current.{table_size};
ghost use Rattle.cards.specs.Bytes.{quote};
ghost use Rattle.syntax.specs.Lexemes.{run_length};
ghost use Rattle.symbols.specs.Bounds.{far_enough};
ghost use Rattle.numeric_parser.specs.Operands.{ReaderReady};
ghost use Rattle.card_reader.specs.Packs.{longest_text};
ghost use Rattle.lexer.specs.Places.{CountedBytes};
ghost use Rattle.string_parser.specs.Elements.{LiteralWritable, LiteralWritten, LiteralRead};

use crate::put;
use encoding::cell_kinds::LITERAL;
use encoding::cells::Cell;
use lexer::begins_at;
use numeric_parser::operands::range_value;
use symbols::{Cursor, Mentioned, put_literals};

// how many bytes stand before the next quote
#[tactic(auto, using(crate::proofs::Quotes::quotes_next))]
fn literal_length(text: &[u8], at: usize) -> usize
    requires { at ≤ length text.now }
    ensures { CountedBytes text.now at (run_length (λ (b : ℕ). not (eqb b quote)) (drop at text.now)) result }
{
    search::next_byte(text, b'"', at) - at
}

// writes the n bytes behind the quote at the cursor as a literal; the cursor goes size further
fn put_literal(text: &[u8], table: &mut [u8], c: Cursor, n: usize, size: usize) -> Cursor
    requires literal_writable { LiteralWritable text.now c n size }
    requires table_size_in_bounds { table_size ≤ length table.old }
    ensures { LiteralWritten text.now table.old c n size table.new result }
{
    let from = c.at + 1;
    let end = from + n;
    put_literals(table, c.literals, &text[from..end]);
    let cell = Cell {
        kind: LITERAL,
        place: 0,
        value: range_value(c.literals, n, 0),
    };
    let d = put(table, c, cell);
    Cursor {
        at: c.at + size,
        literals: c.literals + n,
        ..d
    }
}

// a literal at its first quote: `""` behind it is one quote, else it goes up to the next quote
pub fn literal(text: &[u8], table: &mut [u8], c: Cursor) -> Cursor
    requires at_in_bounds { (c.at < length text.now) × (length text.now ≤ longest_text) }
    requires counts_in_bounds { (c.elements ≤ far_enough) × (c.literals ≤ far_enough) }
    requires table_size_in_bounds { table_size ≤ length table.old }
    ensures { (m : Mentioned) → ReaderReady text.now c → LiteralRead text.now table.old m c table.new result }
{
    let at = c.at + 1;
    if begins_at(text, at, b"\"\"") {
        return put_literal(text, table, c, 1, 3);
    }
    let n = literal_length(text, at);
    if at + n < text.len() {
        return put_literal(text, table, c, n, n + 2);
    }
    put_literal(text, table, c, n, n + 1)
}
