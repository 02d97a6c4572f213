// Names as numbers of 64 bits: the key of up to 8 bytes.
// Assumes nothing.
ghost use Rattle.std.specs.Prelude.{◌≡◌, take};
ghost use Rattle.cards.specs.Cards.{without_blanks};
ghost use Rattle.card_reader.specs.Keys.{key_of};

use crate::line;
use classes::is_blank;

// the key of the first 8 bytes without blanks: of a line's label, or of a name
pub fn key_of(name: &[u8]) -> u64
    ensures { result ≡ key_of (without_blanks (take 8 name.now)) }
{
    let mut key: u64 = 0;
    for b in line::front(name, 8).iter().rev() {
        if !is_blank(*b) {
            key = 256 * key + *b as u64;
        }
    }
    key
}
