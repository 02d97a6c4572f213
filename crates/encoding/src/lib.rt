// Definitions: table, store and state as bytes and numbers. For code: the layouts of specs/Table and specs/Buffers, a table's cells and rows, and
// their kinds.
#![tactic(auto)]

pub mod cell_kinds;
pub mod cells;
pub mod step_kinds;

// where each region of a table starts, and where the last one ends
pub const STEPS_AT: usize = 64;

pub const ELEMENTS_AT: usize = 6208;

pub const ITEMS_AT: usize = 14_400;

pub const LITERALS_AT: usize = 22_592;

// kept: where a table is read it is a slice: an array's type would ask for exactly so many bytes, where these functions take a longer table too
pub const TABLE_SIZE: usize = 28_672;

// the bytes of a step's row, and of a cell
pub const STEP_ROW: usize = 24;

pub const TABLE_CELL: usize = 8;

// a range is three numbers in one: where it starts, how many there are, counted by the first of these, and how many more, by the second
pub const RANGE_STEP: usize = 65_536;

pub const RANGE_MORE: usize = RANGE_STEP * RANGE_STEP;

// how many numbers may wait in an expression
pub const WAITING: usize = 64;

// the store is a cell for each string: two bytes of length, then the string, up to 1,024 bytes, then zeros
pub const CELL_SIZE: usize = 1026;

pub const STORE_SIZE: usize = 32_832;

// a state's numbers, and where it has the status, the next step, how many returns are held, the input place, the output length, the returns,
// the oldest first, and the numbers
// kept: wherever a state is lent it is an array of so many numbers, the caller's, by the C interface
pub const STATE_SIZE: usize = 64;

pub const STATUS_AT: usize = 0;

pub const NEXT_AT: usize = 1;

pub const HELD_AT: usize = 2;

pub const READ_AT: usize = 3;

pub const WRITTEN_AT: usize = 4;

pub const RETURNS_AT: usize = 5;

pub const NUMBERS_AT: usize = 21;

// what a state's status says
// kept: numbers, since the state is C's array of numbers; crate state alone reads and writes them
pub const RUNNING: u64 = 0;

pub const FINISHED: u64 = 1;

pub const STOPPED: u64 = 2;

// an integer is kept as a number with this much added
pub const BIAS: u64 = 140_737_488_355_328;
