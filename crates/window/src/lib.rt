// Definitions: the window of prices of document 02. For code: the layout of specs/Window, why a call is turned down, and the number that it gives.
#![tactic(auto)]

ghost use Rattle.std.specs.Prelude.{◌≡◌};
ghost use Rattle.window.specs.Refusals.{number_of, refusal_number};

// the most prices held, the bytes of a price, and those of a window
pub const PRICES: usize = 32;

pub const PRICE_SIZE: usize = 8;

pub const SIZE: usize = PRICES * PRICE_SIZE;

pub const PRICE_LIMIT: u64 = 999_999;

// the numbers of a summary: count, lowest, highest and sum
// kept: the caller's array, by the C interface
pub const SUMMARY_SIZE: usize = 4;

// Why a call is turned down: the window is too small or against its rules; the price is out of range.
#[derive(Clone, Copy, PartialEq, Eq)]
pub enum Refusal {
    BadWindow = 14,
    BadPrice = 25,
}

impl Refusal {
    // the number that the call gives
    pub fn number(self) -> u32
        ensures { result ≡ refusal_number self }
    {
        self as u32
    }
}

// the number that a call gives: 0 where it was not turned down
pub fn number_of(outcome: Result<(), Refusal>) -> u32
    ensures { result ≡ number_of outcome }
{
    match outcome {
        Ok(()) => 0,
        Err(refusal) => refusal.number(),
    }
}
