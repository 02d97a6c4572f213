// Packing: the bytes of a statement without the blanks outside literals.
// Assumes nothing.
ghost use Rattle.std.specs.Prelude.{◌≡◌, ◌<◌};
ghost use Rattle.cards.specs.Packing.{place_after};
ghost use Rattle.card_reader.specs.Places.{place_meaning, stays_whole};
ghost use Rattle.card_reader.specs.Packs.{Packable, Packs, PackingSteps, longest_text};

use base::DECK;
use classes::is_blank;

// where a byte stands: outside a literal, right behind the quote that opens one, right behind two quotes, further inside
#[derive(Clone, Copy, PartialEq, Eq)]
pub enum Place {
    Outside,
    Opened,
    Doubled,
    Inside,
}

// what is packed so far: the place of the next byte, whether no literal was broken, and how many bytes there are
// kept: whole is a truth beside the length: bytes are packed and counted behind a broken literal too
#[derive(Clone, Copy)]
pub struct Packing {
    pub place: Place,
    pub whole: bool,
    pub length: usize,
}

impl Place {
    // the place behind a byte
    fn after(self, b: u8) -> Place
        ensures { place_meaning result ≡ place_after (place_meaning self) b }
    {
        match self {
            Place::Outside => if b == b'"' {
                Place::Opened
            } else {
                Place::Outside
            },
            Place::Opened => if b == b'"' {
                Place::Doubled
            } else {
                Place::Inside
            },
            Place::Doubled => Place::Outside,
            Place::Inside => if b == b'"' {
                Place::Outside
            } else {
                Place::Inside
            },
        }
    }

    // false behind two quotes that no third follows
    fn stays_whole(self, b: u8) -> bool
        ensures { result ≡ stays_whole (place_meaning self) b }
    {
        self != Place::Doubled || b == b'"'
    }
}

impl Packing {
    // Goes on behind a byte: a blank outside literals is not kept.
    // kept: both sides of the test are asked at once, since && makes packing 9 percent slower
    fn step(self, b: u8) -> Packing
        requires { self.length < longest_text }
        ensures { PackingSteps self b result }
    {
        if (self.place == Place::Outside) & (b != b'"') {
            return Packing {
                length: self.length + !is_blank(b) as usize,
                ..self
            };
        }
        Packing {
            place: self.place.after(b),
            whole: self.whole & self.place.stays_whole(b),
            length: self.length + 1,
        }
    }

    // packs some bytes behind those of text that are packed
    pub fn pack(self, part: &[u8], text: &mut [u8; DECK]) -> Packing
        requires { Packable part.now text.old self }
        ensures { Packs part.now text.old self text.new result }
    {
        let mut s = self;
        for b in part {
            text[s.length] = *b;
            s = s.step(*b);
        }
        s
    }
}
