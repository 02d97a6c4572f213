// SCAN and BACKSCAN on the buffers: reference, pattern values, scan, fillers made null, naming, replacement. That is the machine's order of work, but
// that the fillers are null before its scan, as finding.rt says. The contract is an equation with scanning_in of the crate machine.
// kept: table, store and state come apart, as effects/valued.rt says; out is a slice of 1,024 bytes, as crate evaluator says
#![tactic(auto)]

pub mod finding;
pub mod putting;
pub mod replacing;
pub mod valuing;

ghost use Rattle.encoding.specs.BufferLaws.{StoreGood};
ghost use Rattle.decoder.specs.Meaning.{replacement_meaning};
ghost use Rattle.scan_statement.specs.Scans.{Scannable, scanning_of, ScanLeaves};
ghost use Rattle.scan_statement.specs.Stages.{Referred, searched_rest};

use base::{LONGEST, ROW};
use decoder::Scan;
use effects::Span;
use effects::fillers::copy_fillers;
use effects::reference::reference_ends;
use encoding::STATE_SIZE;
use evaluator::Memory;
use finding::find_split;
use replacing::{keep_fillers, replace_pieces};
use scan::ROWS_SIZE;
use scanning::ANSWER_SIZE;
use values::{Noted, Stop};
use valuing::pattern_rows;

// the bytes of a pattern's values; of its rows the crate scan says how many, and of the places that its pieces are to name there are as many as rows
pub const VALUES_SIZE: usize = LONGEST * ROW;

// A scan of the bytes of a span: whether there is a split, with the notes. The fillers are kept for a replacement that stops, which puts them
// back; its value may be written over those of the pattern, which aren't needed any more.
// kept: kept is a slice, since it may be longer than a store: StoreGood says at least how long it is
fn scan_span(
    table: &[u8],
    store: &mut [u8],
    state: &[u64; STATE_SIZE],
    s: Scan,
    at: Span,
    values: &mut [u8; VALUES_SIZE],
    kept: &mut [u8],
    answer: &mut [u32; ANSWER_SIZE],
) -> Result<Noted<bool>, Stop>
    requires referred { Referred table.now store.old state.now s at }
    requires kept_good { StoreGood kept.old }
    ensures scan_leaves { ScanLeaves result store.old store.new state.now answer.new
        (searched_rest table.now store.old state.now s.direction at s.pattern
        (replacement_meaning table.now s.replacement)) }
    ensures kept_stays { StoreGood kept.new }
{
    let mut rows = [0u8; ROWS_SIZE];
    let mut names = [0u8; ROW];
    let pattern = s.pattern;
    let notes = pattern_rows(
        table,
        Memory { store, state },
        pattern,
        values,
        &mut rows,
        &mut names,
    )?;
    keep_fillers(table, store, kept, s);
    if !find_split(table, store, s, at, values, &rows, &names, answer) {
        return Ok(Noted {
            value: false,
            notes,
        });
    }
    match replace_pieces(table, store, state, s, at, answer, &mut values[..LONGEST]) {
        Ok(more) => Ok(Noted {
            value: true,
            notes: notes + more,
        }),
        Err(stop) => {
            copy_fillers(table, kept, store, pattern);
            Err(stop)
        }
    }
}

// SCAN or BACKSCAN: whether there is a split, with the notes. What stops it leaves the store as it was; the answer has all numbers of the scan
// but the notes, if it isn't stopped.
pub fn scan_step(
    table: &[u8],
    store: &mut [u8],
    state: &[u64; STATE_SIZE],
    s: Scan,
    values: &mut [u8; VALUES_SIZE],
    kept: &mut [u8],
    answer: &mut [u32; ANSWER_SIZE],
) -> Result<Noted<bool>, Stop>
    requires scannable { Scannable table.now store.old state.now s }
    requires kept_good { StoreGood kept.old }
    ensures scan_leaves { ScanLeaves result store.old store.new state.now answer.new
        (scanning_of table.now store.old state.now s) }
    ensures kept_stays { StoreGood kept.new }
{
    let at = reference_ends(Memory { store, state }, s.direction, s.part)?;
    scan_span(table, store, state, s, at, values, kept, answer)
}
