// Definitions: the register of contracts of document 02. For code: the layout of specs/Buffer, why a call is turned down, and the number that it gives.
#![tactic(auto)]

ghost use Rattle.std.specs.Prelude.{◌≡◌};
ghost use Rattle.register.specs.Refusals.{number_of, refusal_number};

// the most lines, and the bytes of a register, of its header and of a line's slot
// kept: keys and worths of a register's lines are lists of at most so many, since memory is fixed (crate base)
pub const LINES: usize = 256;

pub const SIZE: usize = 8192;

pub const HEADER: usize = 1024;

pub const SLOT: usize = 28;

// the bytes of a currency
pub const CURRENCY: usize = 3;

// the bytes that a line is handed out in
// kept: the caller's array, by the C interface
pub const LINE_SIZE: usize = 32;

// Why a call is turned down: the buffer is too small, against its rules or not opened; the output can't hold the report; a line breaks its form; its
// contract is held already; all places are taken; the house currency breaks its form.
#[derive(Clone, Copy, PartialEq, Eq)]
pub enum Refusal {
    BadBuffer = 14,
    OutputFull = 21,
    BadLine = 25,
    ContractHeld = 26,
    Full = 27,
    BadCurrency = 29,
}

impl Refusal {
    // the number that the call gives
    pub fn number(self) -> u32
        ensures { result ≡ refusal_number self }
    {
        self as u32
    }
}

// the number that a call gives: 0 where it was not turned down
pub fn number_of(outcome: Result<(), Refusal>) -> u32
    ensures { result ≡ number_of outcome }
{
    match outcome {
        Ok(()) => 0,
        Err(refusal) => refusal.number(),
    }
}
