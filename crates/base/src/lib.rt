// Definitions: what every other crate's specs lean on. For code: the counts of specs/Limits.
#![tactic(auto)]

// kept: the library's memory is fixed, without a heap, a rule of the project: so arrays and lists of at most such sizes stand in the crates

// how many steps, strings, numbers, labels and routines a program may have
pub const STEPS: usize = 256;

pub const STRINGS: usize = 32;

pub const NUMBERS: usize = 32;

pub const LABELS: usize = 64;

pub const ROUTINES: usize = 16;

// the most elements of an expression
pub const ROW: usize = 20;

// the most elements, items and literal bytes of a program
pub const ELEMENTS: usize = 1024;

pub const ITEMS: usize = 1024;

pub const LITERALS: usize = 4096;

// the longest string
pub const LONGEST: usize = 1024;

// how deep parentheses go
pub const DEEPEST: usize = 16;

// the most returns held
pub const RETURNS: usize = 16;

// the longest deck, and the longest line of one
pub const DECK: usize = 32_768;

pub const LINE: usize = 80;
