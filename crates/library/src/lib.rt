// The calls open to C, each with its promise: all that the library exports, on one page. Each is the call of the same name of the crate that does
// its work.
// kept: numbers, by the C interface: within, they are enums with a method `number`, but for read's 1 and 2 and start's 14, said by the call
// kept: by the C interface the calls' signatures stand here again, and their parameters are as C passes them: numbers, buffers one by one, arrays
#![tactic(auto)]

ghost use Rattle.base.specs.Current.{current};
ghost use Rattle.calls.specs.Calls.{buffers};
ghost use Rattle.calls.specs.Promises.{ReadPromise, StartPromise, StepPromise, RunPromise, read_back, start_back, step_back, run_back};
ghost use Rattle.register.specs.Claims.{OpenPromise, OfferPromise, LinePromise, ReportPromise, buffer_back, line_back, report_back};
ghost use Rattle.scanning.specs.Call.{ScanPromise};
ghost use Rattle.window.specs.Claims.{AskPromise, TakePromise, ask_back, take_back};

use encoding::STATE_SIZE;
use register::LINE_SIZE;
use scanning::ANSWER_SIZE;
use window::SUMMARY_SIZE;

// The deck call: 0 with the deck's program in the table; or a number and its card, the table zeroed, by 1 and 2 left as it was.
#[unsafe(no_mangle)]
pub extern "C" fn strigol_read(deck: &[u8], table: &mut [u8], card: &mut u32) -> u32
    ensures { ReadPromise current deck.now table.old (read_back result card.new table.new) }
{
    deck_reader::strigol_read(deck, table, card)
}

// The starting call: the state before the first step, and the store zeroed; 14 if the store is too small, which then stays.
#[unsafe(no_mangle)]
pub extern "C" fn strigol_start(store: &mut [u8], state: &mut [u64; STATE_SIZE]) -> u32
    ensures { StartPromise store.old (start_back result store.new state.new) }
{
    state::strigol_start(store, state)
}

// The step call: a run of one step.
#[unsafe(no_mangle)]
pub extern "C" fn strigol_step(
    table: &[u8],
    store: &mut [u8],
    state: &mut [u64; STATE_SIZE],
    input: &[u8],
    output: &mut [u8],
    answer: &mut [u32; ANSWER_SIZE],
) -> u32
    ensures { StepPromise current table.now input.now (buffers store.old state.old output.old)
        (step_back result answer.new (buffers store.new state.new output.new)) }
{
    interpreter::strigol_step(table, store, state, input, output, answer)
}

// The run call: so many steps at most. A run of more is a run again on what the last one left.
#[unsafe(no_mangle)]
pub extern "C" fn strigol_run(
    table: &[u8],
    store: &mut [u8],
    state: &mut [u64; STATE_SIZE],
    input: &[u8],
    output: &mut [u8],
    count: u32,
    res: &mut [u64; 4],
) -> u32
    ensures { RunPromise current table.now input.now count (buffers store.old state.old output.old)
        (run_back result res.new (buffers store.new state.new output.new)) }
{
    interpreter::run::strigol_run(table, store, state, input, output, count, res)
}

// The scan call: 0 and the scan's answer, or 22, 23 or 24 and no split.
#[unsafe(no_mangle)]
pub extern "C" fn strigol_scan(
    reference: &[u8],
    values: &[u8],
    elements: &[u8],
    answer: &mut [u32; ANSWER_SIZE],
) -> u32
    ensures { ScanPromise reference.now values.now elements.now result answer.new }
{
    scan::strigol_scan(reference, values, elements, answer)
}

// Opens the register, or opens it again, with a house currency.
#[unsafe(no_mangle)]
pub extern "C" fn strigol_register_open(buffer: &mut [u8], currency: &[u8]) -> u32
    ensures { OpenPromise buffer.old currency.now (buffer_back result buffer.new) }
{
    register_calls::strigol_register_open(buffer, currency)
}

// Offers the register a line.
#[unsafe(no_mangle)]
pub extern "C" fn strigol_register_offer(buffer: &mut [u8], line: &[u8]) -> u32
    ensures { OfferPromise buffer.old line.now (buffer_back result buffer.new) }
{
    register_calls::strigol_register_offer(buffer, line)
}

// Hands out the line of a place.
#[unsafe(no_mangle)]
pub extern "C" fn strigol_register_line(
    buffer: &[u8],
    place: u64,
    line: &mut [u8; LINE_SIZE],
    length: &mut u32,
) -> u32
    ensures { LinePromise buffer.now place (line_back result line.new length.new) }
{
    register_calls::strigol_register_line(buffer, place, line, length)
}

// Puts the closing report of the register.
#[unsafe(no_mangle)]
pub extern "C" fn strigol_register_report(buffer: &[u8], output: &mut [u8], length: &mut u32) -> u32
    ensures { ReportPromise buffer.now output.old (report_back result output.new length.new) }
{
    register_report::strigol_register_report(buffer, output, length)
}

// Takes a price into the window.
#[unsafe(no_mangle)]
pub extern "C" fn strigol_window_take(
    window: &mut [u8],
    price: u64,
    summary: &mut [u64; SUMMARY_SIZE],
) -> u32
    ensures { TakePromise window.old price (take_back result summary.new window.new) }
{
    window_calls::strigol_window_take(window, price, summary)
}

// Asks for the summary of the prices in the window.
#[unsafe(no_mangle)]
pub extern "C" fn strigol_window_ask(window: &[u8], summary: &mut [u64; SUMMARY_SIZE]) -> u32
    ensures { AskPromise window.now (ask_back result summary.new) }
{
    window_calls::strigol_window_ask(window, summary)
}
