// What work on values gives: a value with the notes made on the way, or what stops the step.
// The definitions are numbers and their range, substrings, conversion between numbers and strings.
#![tactic(auto)]

ghost use Rattle.std.specs.Prelude.{◌≡◌, ◌+◌, ◌<◌, ◌^◌};
ghost use Rattle.values.specs.Stops.{stop_number};

// what stops a step
#[derive(Clone, Copy, PartialEq, Eq)]
pub enum Stop {
    NegativeLength = 17,
    ZeroDivisor = 18,
    OutOfRange = 19,
    TooLong = 20,
    OutputFull = 21,
}

impl Stop {
    // its number in an answer
    // kept: a method, here and for refusals, kinds, flags and outcomes: its contract says the number in one clause, where From has a ghost
    // member for it (from_gives); and a trait of such methods would have an impl of the same lines for each
    pub fn number(self) -> u32
        ensures { result ≡ stop_number self }
    {
        self as u32
    }
}

// a value with the notes made on the way
#[derive(Clone, Copy)]
pub struct Noted<T> {
    pub value: T,
    pub notes: u32,
}

impl<T: Copy> Noted<T> {
    // a value that no note was made for
    pub fn plain(value: T) -> Noted<T>
        ensures { result ≡ record { value = value; notes = 0 } }
    {
        Noted { value, notes: 0 }
    }

    // so many notes more, made before its own
    pub fn behind(self, before: u32) -> Noted<T>
        requires { before + self.notes < 2 ^ 32 }
        ensures { result ≡ record { value = self.value; notes = before + self.notes } }
    {
        Noted {
            notes: before + self.notes,
            ..self
        }
    }
}
