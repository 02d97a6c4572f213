// The second pass over an accepted deck: each statement read again, its step written.
// Assumes nothing.
ghost use Rattle.std.specs.Prelude.{◌≡◌, ◌≤◌, ◌<◌, length};
ghost use Rattle.base.specs.Current.{table_size};
ghost use Rattle.symbols.specs.Clauses.{names_room};
ghost use Rattle.card_reader.specs.Letters.{letters};
ghost use Rattle.card_reader.specs.Packs.{longest_text};
ghost use Rattle.deck_reader.specs.Steps.{CountsSmall, Writable, cursor_before, PackedWritten, GatheredWritten, StepWritten, DeckAccepted};
ghost use Rattle.deck_reader.specs.StepsLaws.{DeckWritten};

use crate::Deck;
use crate::table::put_row;
use base::DECK;
use card_reader::{PackedStatement, gather};
use statement_parser::read_statement;
use symbols::known::Known;
use symbols::{Cursor, Mentioned};

// where the second pass is: the next line and its card; how many steps, elements, items and literal bytes are written
// kept: that the counts are small is no ghost field: `..p` is refused in a struct with one
#[derive(Clone, Copy)]
pub struct Progress {
    pub from: usize,
    pub card: usize,
    pub steps: usize,
    pub elements: usize,
    pub items: usize,
    pub literals: usize,
}

impl Progress {
    // the cursor before a statement
    fn cursor(self) -> Cursor
        ensures { result ≡ cursor_before self }
    {
        Cursor::before_statement(self.items, self.elements, self.literals)
    }
}

// writes the step of a statement by its packed text, if it makes one
fn write_packed(
    text: &[u8],
    packed: PackedStatement,
    p: Progress,
    known: &Known,
    mentioned: &mut Mentioned,
    table: &mut [u8],
) -> Progress
    requires counts_small { CountsSmall p × (length text.now ≤ longest_text) × (letters text.now < names_room) }
    requires table_size_in_bounds { table_size ≤ length table.old }
    ensures { PackedWritten text.now known.now packed p table.old result table.new }
{
    let c = p.cursor();
    match read_statement(text, packed, known, table, mentioned, c) {
        None => p,
        Some((None, _)) => p,
        Some((Some(row), d)) => {
            put_row(table, p.steps, p.card, row);
            // kept: three counts copied: the cursor has others beside them, set anew at each statement
            Progress {
                steps: p.steps + 1,
                elements: d.elements,
                items: d.items,
                literals: d.literals,
                ..p
            }
        }
    }
}

// writes the step of an entry, if it makes one; the packed text of a statement stands at the beginning of text
fn write_gathered(
    text: &[u8],
    statement: Option<PackedStatement>,
    p: Progress,
    known: &mut Known,
    mentioned: &mut Mentioned,
    table: &mut [u8],
) -> Progress
    requires counts_small { CountsSmall p × Writable text.now statement }
    requires table_size_in_bounds { table_size ≤ length table.old }
    ensures { GatheredWritten text.now known.old mentioned.old statement p table.old result known.new mentioned.new table.new }
{
    match statement {
        None => p,
        Some(packed) => {
            known.next = p.steps + 1;
            write_packed(&text[..packed.length], packed, p, known, mentioned, table)
        }
    }
}

// writes the step of the entry that starts with the line where p is
fn write_entry(
    deck: Deck,
    p: Progress,
    known: &mut Known,
    text: &mut [u8; DECK],
    mentioned: &mut Mentioned,
    table: &mut [u8],
) -> Progress
    requires counts_small { CountsSmall p × (p.from < length deck.bytes.now) }
    requires table_size_in_bounds { table_size ≤ length table.old }
    ensures { StepWritten deck.entry.bytes.now known.old p table.old result known.new table.new }
{
    let e = gather(deck.bytes, p.from, text);
    let written = write_gathered(text, e.statement, p, known, mentioned, table);
    Progress {
        from: e.next,
        card: p.card + e.lines,
        ..written
    }
}

// writes the steps of an accepted deck
pub fn write_steps(
    deck: Deck,
    known: &mut Known,
    text: &mut [u8; DECK],
    mentioned: &mut Mentioned,
    table: &mut [u8],
) -> Progress
    requires deck_accepted { DeckAccepted deck.bytes.now known.old }
    requires table_size_in_bounds { table_size ≤ length table.old }
    ensures { DeckWritten deck.entry.bytes.now known.old table.old result known.new table.new }
{
    let mut p = Progress {
        from: 0,
        card: 1,
        steps: 0,
        elements: 0,
        items: 0,
        literals: 0,
    };
    // kept: from entry to entry, as in the first pass
    while p.from < deck.bytes.len() {
        p = write_entry(deck, p, known, text, mentioned, table);
    }
    p
}
