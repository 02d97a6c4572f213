// What values are found in, lent to be read.
// Assumes nothing.
ghost use Rattle.evaluator.specs.Memory.{MemoryReady};

use encoding::STATE_SIZE;

// what values are found in: the store has the strings, the state the numbers; whatever writes them leaves them ready, by its contract
// kept: the table comes beside it: parts, operands and comparisons are valued without one
#[derive(Clone, Copy)]
pub struct Memory<'a> {
    pub store: &'a [u8],
    pub state: &'a [u64; STATE_SIZE],
    pub ghost ready: { MemoryReady store.now state.now },
}
