// The first pass over a deck: its entries judged one after the other by 3 to 10, then the deck by 11 and 12.
// Assumes nothing.
ghost use Rattle.std.specs.Prelude.{true, ◌≡◌, ◌≤◌, length};
ghost use Rattle.base.specs.Current.{table_size};
ghost use Rattle.validation.specs.Environment.{empty_environment};
ghost use Rattle.validation.specs.RefusalNumbers.{judged_number};
ghost use Rattle.link_checks.specs.Held.{Closable};
ghost use Rattle.symbols.specs.Holding.{SymbolsHold};
ghost use Rattle.deck_reader.specs.Verdicts.{verdict_of};
ghost use Rattle.deck_reader.specs.Judging.{start_at, Readied, Entered, PackedNumbered, EntryNumbered, ended_in, closed_in, StatementsJudged, DeckJudged};

use crate::Deck;
use base::DECK;
use card_reader::{Gathered, PackedStatement, gather};
use lexer::keywords::leading;
use link_checks::{executes_itself, undefined_or_crossing};
use statement_checks::{is_misplaced, judge_statement};
use statement_parser::read_statement;
use symbols::known::{Known, Symbols};
use symbols::{Cursor, Mentioned};
use validation::Refusal;

// why a deck is refused, and the card of the entry at which it is; 0 for END that is missing, and for 11 and 12
// kept: card 0 for none, as document 01 and C have it
#[derive(Clone, Copy)]
pub struct Refused {
    pub refusal: Refusal,
    pub card: usize,
}

impl Refused {
    // of the deck as a whole
    fn of_deck(refusal: Refusal) -> Refused
        ensures { result ≡ record { refusal = refusal; card = 0 } }
    {
        Refused { refusal, card: 0 }
    }
}

// the cursor before a statement
pub fn start(known: &Known) -> Cursor
    ensures { result ≡ start_at known.now }
{
    Cursor::before_statement(known.items, known.elements, known.literals)
}

// judges a sound statement by its packed text; if it passes the symbol table holds the environment behind it
// kept: buffers one by one, here, in steps and in lib, as the parsers take them (numeric_parser/operands): text is read while the others are written
fn judge_packed(
    text: &[u8],
    packed: PackedStatement,
    symbols: &mut Symbols,
    mentioned: &mut Mentioned,
    table: &mut [u8],
) -> Result<(), Refusal>
    requires readied { Readied text.now packed symbols.old }
    requires table_size_in_bounds { table_size ≤ length table.old }
    ensures { PackedNumbered text.now packed true symbols.old (judged_number result) symbols.new }
{
    let kind = leading(text).kind;
    if is_misplaced(&symbols.known, kind) {
        return Err(Refusal::Misplaced);
    }
    let c = start(&symbols.known);
    let form = read_statement(text, packed, &symbols.known, table, mentioned, c);
    let (_, d) = form.ok_or(Refusal::BadForm)?;
    judge_statement(symbols, mentioned, d, kind)
}

// judges an entry; the packed text of a statement stands at the beginning of text
fn judge_gathered(
    text: &[u8],
    e: Gathered,
    symbols: &mut Symbols,
    mentioned: &mut Mentioned,
    table: &mut [u8],
) -> Result<(), Refusal>
    requires entered { Entered text.now e symbols.old }
    requires table_size_in_bounds { table_size ≤ length table.old }
    ensures { EntryNumbered text.now e symbols.old (judged_number result) symbols.new }
{
    if !e.sound {
        return Err(Refusal::BadLine);
    }
    match e.statement {
        None => Ok(()),
        Some(packed) => judge_packed(&text[..packed.length], packed, symbols, mentioned, table),
    }
}

// 4 where END is missing, behind the last line
fn ended(known: &Known) -> Result<(), Refused>
    ensures { verdict_of result ≡ ended_in known.now }
{
    if known.ended {
        return Ok(());
    }
    Err(Refused::of_deck(Refusal::Misplaced))
}

// judges the deck's entries one after the other, and whether END is there
fn judge_statements(
    deck: Deck,
    symbols: &mut Symbols,
    text: &mut [u8; DECK],
    mentioned: &mut Mentioned,
    table: &mut [u8],
) -> Result<(), Refused>
    requires symbols_hold { SymbolsHold symbols.old 0 empty_environment }
    requires table_size_in_bounds { table_size ≤ length table.old }
    ensures { StatementsJudged deck.entry.bytes.now (verdict_of result) symbols.new }
{
    let mut from: usize = 0;
    let mut card: usize = 1;
    // kept: from entry to entry: each says where the next begins and how many cards it has
    while from < deck.bytes.len() {
        let e = gather(deck.bytes, from, text);
        let judged = judge_gathered(text, e, symbols, mentioned, table);
        judged.map_err(|refusal| Refused { refusal, card })?;
        card += e.lines;
        from = e.next;
    }
    ended(&symbols.known)
}

// 11 and 12 of a deck whose statements passed
fn closed(symbols: &Symbols) -> Result<(), Refused>
    requires { Closable symbols.now }
    ensures { verdict_of result ≡ closed_in symbols.now }
{
    if undefined_or_crossing(symbols) {
        return Err(Refused::of_deck(Refusal::BadLink));
    }
    if executes_itself(symbols) {
        return Err(Refused::of_deck(Refusal::Recursion));
    }
    Ok(())
}

// judges the whole deck
pub fn judge_deck(
    deck: Deck,
    symbols: &mut Symbols,
    text: &mut [u8; DECK],
    mentioned: &mut Mentioned,
    table: &mut [u8],
) -> Result<(), Refused>
    requires symbols_hold { SymbolsHold symbols.old 0 empty_environment }
    requires table_size_in_bounds { table_size ≤ length table.old }
    ensures { DeckJudged deck.entry.bytes.now (verdict_of result) symbols.new }
{
    judge_statements(deck, symbols, text, mentioned, table)?;
    closed(symbols)
}
