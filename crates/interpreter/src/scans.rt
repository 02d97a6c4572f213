// SCAN and BACKSCAN carried out on the buffers, the state moved on with them.
ghost use Rattle.std.specs.Prelude.{List, ℕ};
ghost use Rattle.calls.specs.Calls.{buffers};
ghost use Rattle.encoding.specs.BufferLaws.{StoreGood};
ghost use Rattle.scan_statement.specs.Scans.{Scannable};
ghost use Rattle.interpreter.specs.Clauses.{DoesScan};

use decoder::Scan;
use encoding::STATE_SIZE;
use scan_statement::{VALUES_SIZE, scan_step};
use scanning::ANSWER_SIZE;
use values::Stop;

// a scan, with the large buffers that it works in
pub fn scan(
    table: &[u8],
    store: &mut [u8],
    state: &mut [u64; STATE_SIZE],
    s: Scan,
    values: &mut [u8; VALUES_SIZE],
    kept: &mut [u8],
    answer: &mut [u32; ANSWER_SIZE],
) -> Result<u32, Stop>
    requires scannable { Scannable table.now store.old state.old s }
    requires kept_good { StoreGood kept.old }
    ensures does_scan { (input output : List ℕ) → DoesScan s table.now result
        (buffers store.old state.old output) (buffers store.new state.new output) input answer.new }
    ensures kept_stays { StoreGood kept.new }
{
    let split = scan_step(table, store, state, s, values, kept, answer)?;
    execution::take_branch(state, split.value, s.branch);
    Ok(split.notes)
}
