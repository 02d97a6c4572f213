// A pattern's values, left to right, as rows for the scan, with the places that the pieces are to name.
// Each contract is an equation with the definitions of the crate machine.
ghost use Rattle.base.specs.Current.{current};
ghost use Rattle.evaluator.specs.Meaning.{memory_meaning};
ghost use Rattle.machine.specs.Expressions.{element_in};
ghost use Rattle.machine.specs.Scanning.{pattern_in, valued_in};
ghost use Rattle.decoder.specs.Meaning.{element_meaning, pattern_meaning, patterns_meaning};
ghost use Rattle.scan_statement.specs.Patterns.{StringPutting, StringPut, ValuePutting, ValueBy, FixedPutting, FixedPut};
ghost use Rattle.scan_statement.specs.Patterns.{ElementPutting, ElementPut, PatternPutting, AllBy};

use crate::VALUES_SIZE;
use crate::putting::put_row_of;
use base::{LONGEST, ROW};
use decoder::{Element, PatternElement, Stretch};
use evaluator::Memory;
use numbers::Int;
use scan::ROWS_SIZE;
use values::Stop;

// as the place that a piece is to name: none
// kept: 32 for none, as effects/fillers says
const NONE: u8 = base::STRINGS as u8;

// Row i is a string of n bytes, of which the first 1,024 stand among the values, where each row has as many. One that is longer fits no
// reference, just as a fixed filler of its length fits none.
fn put_string(rows: &mut [u8; ROWS_SIZE], i: usize, n: usize)
    requires { StringPutting i n }
    ensures { StringPut rows.old rows.new i n }
{
    if LONGEST < n {
        put_row_of(rows, i, scan::Element::Fixed(n));
        return;
    }
    let at = LONGEST * i;
    put_row_of(rows, i, scan::Element::Part(at, at + n));
}

// Row i is the value of an element of a string expression.
fn put_value(
    table: &[u8],
    memory: Memory,
    x: Element,
    i: usize,
    values: &mut [u8; VALUES_SIZE],
    rows: &mut [u8; ROWS_SIZE],
) -> Result<u32, Stop>
    requires { ValuePutting table.now x i }
    ensures { ValueBy result values.old values.new rows.old rows.new i
        (element_in current (memory_meaning memory.entry) (element_meaning table.now x)) }
{
    let at = LONGEST * i;
    let text = evaluator::append_element(table, memory, x, &mut values[at..at + LONGEST], 0)?;
    put_string(rows, i, text.value);
    Ok(text.notes)
}

// Row i is a fixed filler of length z, or a null string that names nothing if z is negative. Gives the notes.
fn put_fixed(
    z: Int,
    place: usize,
    i: usize,
    rows: &mut [u8; ROWS_SIZE],
    names: &mut [u8; ROW],
) -> u32
    requires { FixedPutting z place i }
    ensures { FixedPut z place i rows.old rows.new names.old names.new result }
{
    let Some(length) = numbers::natural(z) else {
        names[i] = NONE;
        put_row_of(rows, i, scan::Element::Part(0, 0));
        return 1;
    };
    names[i] = place as u8;
    put_row_of(rows, i, scan::Element::Fixed(length));
    0
}

// Row i is an element of a pattern of which this string is searched.
fn put_element(
    table: &[u8],
    memory: Memory,
    x: PatternElement,
    i: usize,
    values: &mut [u8; VALUES_SIZE],
    rows: &mut [u8; ROWS_SIZE],
    names: &mut [u8; ROW],
) -> Result<u32, Stop>
    requires { ElementPutting table.now x i }
    ensures { ElementPut result values.old values.new rows.old rows.new names.old names.new i
        (valued_in current (memory_meaning memory.entry) (pattern_meaning table.now x)) }
{
    match x {
        PatternElement::Value(e) => {
            names[i] = NONE;
            put_value(table, memory, e, i, values, rows)
        }
        PatternElement::Free(place) => {
            names[i] = place as u8;
            put_row_of(rows, i, scan::Element::Free);
            Ok(0)
        }
        PatternElement::Fixed(place, n) => {
            let z = evaluator::length_value(memory.state, n);
            Ok(put_fixed(z, place, i, rows, names))
        }
    }
}

// The rows of a pattern, and the places that its pieces are to name.
// kept: by the row's index: values, rows and names each have there what belongs to it, values and rows as the scan call has them (C interface)
pub fn pattern_rows(
    table: &[u8],
    memory: Memory,
    pattern: Stretch,
    values: &mut [u8; VALUES_SIZE],
    rows: &mut [u8; ROWS_SIZE],
    names: &mut [u8; ROW],
) -> Result<u32, Stop>
    requires { PatternPutting table.now pattern }
    ensures { AllBy result table.now values.new rows.new names.new pattern
        (pattern_in current (memory_meaning memory.entry) (patterns_meaning table.now pattern)) }
{
    let from = pattern.from;
    let mut notes: u32 = 0;
    for i in 0..pattern.count {
        let x = decoder::pattern_at(table, from + i);
        notes += put_element(table, memory, x, i, values, rows, names)?;
    }
    Ok(notes)
}
