// Definitions: the judgement of a deck, accepted with its program or refused with a number and a card. For code: the refusals 3 to 12.
#![tactic(auto)]

ghost use Rattle.std.specs.Prelude.{◌≡◌};
ghost use Rattle.validation.specs.RefusalNumbers.{refusal_number};

// why a statement, or a deck whose statements pass, is refused
#[derive(Clone, Copy, PartialEq, Eq)]
pub enum Refusal {
    BadLine = 3,
    Misplaced = 4,
    BadForm = 5,
    NameClash = 6,
    Undeclared = 7,
    FillerClash = 8,
    BadNesting = 9,
    TooMany = 10,
    BadLink = 11,
    Recursion = 12,
}

impl Refusal {
    // the number by which a refusal is told
    pub fn number(self) -> u32
        ensures { result ≡ refusal_number self }
    {
        self as u32
    }
}
