// Definitions: the scan of document 01, what it must answer and how many trials it makes. For code: the layouts of specs/Call, the kinds of
// rows and what the scan call turns down.
#![tactic(auto)]

ghost use Rattle.std.specs.Prelude.{◌≡◌};
ghost use Rattle.scanning.specs.Kinds.{row_kind_number, row_kind_of, refusal_number};

// the bytes of an element's row
pub const ROW_SIZE: usize = 12;

// The kinds of rows: a string, a fixed filler, a free filler.
#[derive(Clone, Copy, PartialEq, Eq)]
pub enum RowKind {
    String = 1,
    Fixed = 2,
    Free = 3,
}

impl RowKind {
    // the number that a row has for its kind
    // kept: a method, as a stop's number is in crate values
    pub fn number(self) -> u8
        ensures { result ≡ row_kind_number self }
    {
        self as u8
    }

    // the kind that a row's number says, if one is known by it
    // kept: by hand and an Option: the numbers are a row's bytes, by the C interface, and TryFrom's error would say no more than None
    pub fn of(number: u8) -> Option<RowKind>
        ensures { result ≡ row_kind_of number }
    {
        match number {
            1 => Some(RowKind::String),
            2 => Some(RowKind::Fixed),
            3 => Some(RowKind::Free),
            _ => None,
        }
    }
}

// Why the scan call turns down what it was lent: the reference is too long, the pattern has too many elements, or a row is no element.
#[derive(Clone, Copy, PartialEq, Eq)]
pub enum Refusal {
    LongReference = 22,
    ManyElements = 23,
    NoElement = 24,
}

impl Refusal {
    // the number that the call answers then
    pub fn number(self) -> u32
        ensures { result ≡ refusal_number self }
    {
        self as u32
    }
}

// an answer's numbers, and where it has whether there is a split, the start, the trials, the notes and the lengths
// kept: an array, not a struct: by the C interface an answer is so many numbers; interpreter's run makes its own so, for those that C's is lent to
pub const ANSWER_SIZE: usize = 24;

pub const FOUND_AT: usize = 0;

pub const START_AT: usize = 1;

pub const TRIALS_AT: usize = 2;

pub const NOTES_AT: usize = 3;

pub const LENGTHS_AT: usize = 4;
