// The symbol table behind some statements of a deck: what is known of its names, and the counts of all that 10 counts. A name is kept as its key.
// Assumes nothing.
ghost use Rattle.std.specs.Prelude.{◌≡◌, ◌<◌};
ghost use Rattle.symbols.specs.Clauses.{names_room};
ghost use Rattle.symbols.specs.Holding.{UseNoted};
ghost use Rattle.symbols.specs.Environment.{nothing_known, key_place, keys_have, string_keys, number_keys, has_routine};

use crate::tags::Purpose;
use crate::{NAMES, has_key, key_place};
use arrayvec::ArrayVec;

// how many of each are listed: one more than 10 allows, so that it can be found
pub const LISTED_STRINGS: usize = base::STRINGS + 1;

pub const LISTED_NUMBERS: usize = base::NUMBERS + 1;

pub const LISTED_LABELS: usize = base::LABELS + 1;

pub const LISTED_ROUTINES: usize = base::ROUTINES + 1;

// a label declared, with the step that comes next and the routine that it stands in, 0 outside all
// kept: scope 0 outside all, and no Option: that takes 16 bytes in place of 8, in Uses 262,400 more of the stack, which GATEWAY.md bounds
#[derive(Clone, Copy, Default)]
pub struct Label {
    pub key: u64,
    pub step: usize,
    pub scope: u64,
}

// a routine declared, with the step behind its ROUTINE and the one behind its ENDROUTINE, 0 as long as it is open
// kept: exit 0 as long as it is open, as document 01's environment has it
#[derive(Clone, Copy, Default)]
pub struct Routine {
    pub key: u64,
    pub entry: usize,
    pub exit: usize,
}

// strings and numbers by their places, labels and routines as they are declared; statements and steps so far, the step behind the statement
// that is read, whether END was the last, the key of the open routine, 0 outside all; elements, items and literal bytes
// kept: scope 0 outside all, wherever a scope is told: it is the key of the empty name, which document 01's environment has there; see Label
// kept: ended is a bool: no value goes with it
#[derive(Drop, Default)]
pub struct Known {
    pub strings: ArrayVec<u64, LISTED_STRINGS>,
    pub numbers: ArrayVec<u64, LISTED_NUMBERS>,
    pub labels: ArrayVec<Label, LISTED_LABELS>,
    pub routines: ArrayVec<Routine, LISTED_ROUTINES>,
    pub statements: usize,
    pub steps: usize,
    pub next: usize,
    pub ended: bool,
    pub scope: u64,
    pub elements: usize,
    pub items: usize,
    pub literals: usize,
}

// the names known, each once with its purpose
// kept: columns, since a pair of key and purpose takes 16 bytes in place of 9, and GATEWAY.md bounds the stack
// kept: arrays with one count, here and in Uses: an ArrayVec for each column would keep it two or three times, and that these agree is one fact more
// kept: that count is at most NAMES is no ghost field, nor in Uses: a law and a proof make both (with_name, with_use), and would prove it there too
#[derive(Drop)]
pub struct Names {
    pub keys: [u64; NAMES],
    pub purposes: [Purpose; NAMES],
    pub count: usize,
}

// the labels and routines used, each with the routine that it is used in, 0 outside all
// kept: columns, as above
#[derive(Drop)]
pub struct Uses {
    pub keys: [u64; NAMES],
    pub scopes: [u64; NAMES],
    pub purposes: [Purpose; NAMES],
    pub count: usize,
}

// all that is known behind some statements
#[derive(Drop)]
pub struct Symbols {
    pub known: Known,
    pub names: Names,
    pub uses: Uses,
}

impl Known {
    // before the first statement
    pub fn new() -> Known
        ensures { result ≡ nothing_known }
    {
        Known::default()
    }

    // the place of a string's name
    // kept: this and number_place are a line each, by the list that they look in
    pub fn string_place(&self, key: u64) -> u8
        ensures { result ≡ key_place key (string_keys self.now) }
    {
        key_place(self.strings.as_slice(), key) as u8
    }

    // the place of a number's name
    pub fn number_place(&self, key: u64) -> u8
        ensures { result ≡ key_place key (number_keys self.now) }
    {
        key_place(self.numbers.as_slice(), key) as u8
    }

    // whether a name is a number's
    pub fn has_number(&self, key: u64) -> bool
        ensures { result ≡ keys_have key (number_keys self.now) }
    {
        has_key(self.numbers.as_slice(), key)
    }

    // whether a name is a routine's
    pub fn has_routine(&self, key: u64) -> bool
        ensures { result ≡ has_routine self.now key }
    {
        self.routines.iter().any(|routine| routine.key == key)
    }
}

impl Uses {
    // notes a use behind those noted before
    pub fn note(&mut self, key: u64, scope: u64, purpose: Purpose)
        requires { self.old.count < names_room }
        ensures { UseNoted self.old key scope purpose self.new }
    {
        let n = self.count;
        self.keys[n] = key;
        self.scopes[n] = scope;
        self.purposes[n] = purpose;
        self.count = n + 1;
    }
}
