// Names: how many bytes of one stand at a place, and the name as a number.
// Assumes nothing.
ghost use Rattle.std.specs.Prelude.{◌≡◌, take, drop};
ghost use Rattle.cards.specs.Bytes.{is_digit};
ghost use Rattle.syntax.specs.Lexemes.{run_length};
ghost use Rattle.card_reader.specs.Keys.{key_of};
ghost use Rattle.lexer.specs.Places.{BoundFound, CountedBytes, NameFound, NameStands};

use crate::byte_at;
use card_reader::keys;
use card_reader::line::behind;
use classes::{is_digit, is_letter, is_letter_or_digit};

// how many digits stand at a place
pub fn digit_count(text: &[u8], at: usize) -> usize
    ensures { CountedBytes text.now at (run_length is_digit (drop at text.now)) result }
{
    behind(text, at)
        .iter()
        .take_while(|b| is_digit(**b))
        .count()
}

// how many bytes the name at a place has, if one stands there
pub fn name_length(text: &[u8], at: usize) -> Option<usize>
    ensures { NameFound text.now at result }
{
    if !is_letter(byte_at(text, at)) {
        return None;
    }
    let n = behind(text, at)
        .iter()
        .take_while(|b| is_letter_or_digit(**b))
        .count();
    (n <= 8).then_some(n)
}

// how many bytes what may stand behind `$` has at a place, if it stands there: digits or a name
pub fn bound_length(text: &[u8], at: usize) -> Option<usize>
    ensures { BoundFound text.now at result }
{
    let n = digit_count(text, at);
    if 1 <= n {
        Some(n)
    } else {
        name_length(text, at)
    }
}

// the key of the name of n bytes at a place
pub fn key_of(text: &[u8], at: usize, n: usize) -> u64
    requires { NameStands text.now at n }
    ensures { result ≡ key_of (take n (drop at text.now)) }
{
    keys::key_of(&text[at..at + n])
}
