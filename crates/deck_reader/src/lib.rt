// The deck call: any bytes in, a table or a number and a card out.
// Assumes nothing.
#![tactic(auto)]

pub mod judge;
pub mod steps;
pub mod table;

ghost use Rattle.std.specs.Prelude.{◌≤◌, length};
ghost use Rattle.base.specs.Current.{current, table_size};
ghost use Rattle.base.specs.Limits.{longest_deck};
ghost use Rattle.calls.specs.Promises.{ReadPromise, read_back};
ghost use Rattle.deck_reader.specs.Steps.{DeckAccepted};
ghost use Rattle.deck_reader.specs.Verdicts.{verdict_of};
ghost use Rattle.deck_reader.specs.Reading.{TableWritten, DeckRead};

use base::DECK;
use encoding::TABLE_SIZE;
use encoding::cells::Counts;
use judge::{Refused, judge_deck};
use steps::write_steps;
use store::spans::{blank, write};
use symbols::known::{Known, Names, Symbols, Uses};
use symbols::tags::{Purpose, Tag};
use symbols::{Mentioned, NAMES};
use table::put_header;

// a deck no longer than it may be
#[derive(Clone, Copy)]
pub struct Deck<'a> {
    pub bytes: &'a [u8],
    pub ghost short: { length bytes.now ≤ longest_deck },
}

// writes the steps of an accepted deck and its header
fn write_table(
    deck: Deck,
    known: &mut Known,
    text: &mut [u8; DECK],
    mentioned: &mut Mentioned,
    table: &mut [u8],
)
    requires deck_accepted { DeckAccepted deck.bytes.now known.old }
    requires table_size_in_bounds { table_size ≤ length table.old }
    ensures { TableWritten deck.entry.bytes.now known.old table.old table.new }
{
    let p = write_steps(deck, known, text, mentioned, table);
    let counts = Counts {
        steps: p.steps,
        strings: known.strings.len(),
        numbers: known.numbers.len(),
        elements: p.elements,
        items: p.items,
        literals: p.literals,
    };
    put_header(table, counts);
}

// reads a deck into a table of a sound size
fn read_deck(deck: Deck, table: &mut [u8]) -> Result<(), Refused>
    requires { table_size ≤ length table.old }
    ensures { DeckRead deck.entry.bytes.now table.old (verdict_of result) table.new }
{
    let mut symbols = Symbols {
        known: Known::new(),
        names: Names {
            keys: [0; NAMES],
            purposes: [Purpose::Program; NAMES],
            count: 0,
        },
        uses: Uses {
            keys: [0; NAMES],
            scopes: [0; NAMES],
            purposes: [Purpose::Program; NAMES],
            count: 0,
        },
    };
    let mut mentioned = Mentioned {
        keys: [0; NAMES],
        tags: [Tag::ProgramDeclared; NAMES],
    };
    let mut text = [0u8; DECK];
    let mut image = [0u8; TABLE_SIZE];
    blank(table, 0, TABLE_SIZE);
    judge_deck(deck, &mut symbols, &mut text, &mut mentioned, &mut image)?;
    // the first pass wrote rows into it
    image = [0; TABLE_SIZE];
    write_table(
        deck,
        &mut symbols.known,
        &mut text,
        &mut mentioned,
        &mut image,
    );
    write(table, 0, &image);
    Ok(())
}

// The deck call: 0 with the deck's program in the table; or a number and its card, the table zeroed, by 1 and 2 left as it was.
// kept: 1 and 2 are said here alone: they leave the table as it is, so no refusal of read_deck has them
pub fn strigol_read(deck: &[u8], table: &mut [u8], card: &mut u32) -> u32
    ensures { ReadPromise current deck.now table.old (read_back result card.new table.new) }
{
    *card = 0;
    if DECK < deck.len() {
        return 1;
    }
    if table.len() < TABLE_SIZE {
        return 2;
    }
    match read_deck(Deck { bytes: deck }, table) {
        Ok(()) => 0,
        Err(refused) => {
            *card = refused.card as u32;
            refused.refusal.number()
        }
    }
}
