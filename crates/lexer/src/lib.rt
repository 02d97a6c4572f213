// Names, constants and keywords of a packed statement, read at a place of it; a place behind the end has no bytes.
// Assumes nothing.
#![tactic(auto)]

pub mod constants;
pub mod keywords;
pub mod names;

ghost use Rattle.std.specs.Prelude.{◌||◌, [], ◌∷◌, ◌≡◌, drop, get_or};
ghost use Rattle.base.specs.Lists.{begins};
ghost use Rattle.cards.specs.Bytes.{is_digit};
ghost use Rattle.syntax.specs.Lexemes.{is_sign};

use card_reader::line::behind;
use classes::is_digit;

// kept: a text and a place in it come apart: what readers answer are places of the same text, and the cursor has its place beside the counts

// the byte at a place, 0 behind the end
// kept: 0 behind the end and no Option, as document 01's reading (get_or) has it; each caller asks for a class that 0 isn't of
pub fn byte_at(text: &[u8], at: usize) -> u8
    ensures { result ≡ get_or (drop at text.now) 0 0 }
{
    text.get(at).copied().unwrap_or(0)
}

// whether a mark stands at a place
pub fn stands_at(text: &[u8], at: usize, mark: u8) -> bool
    ensures { result ≡ begins (mark ∷ []) (drop at text.now) }
{
    text.get(at) == Some(&mark)
}

// whether a sign stands at a place
pub fn sign_at(text: &[u8], at: usize) -> bool
    ensures { result ≡ is_sign (drop at text.now) }
{
    stands_at(text, at, b'+') | stands_at(text, at, b'-')
}

// whether a constant that may have a sign starts at a place
pub fn constant_at(text: &[u8], at: usize) -> bool
    ensures { result ≡ (is_digit (get_or (drop at text.now) 0 0) || is_sign (drop at text.now)) }
{
    is_digit(byte_at(text, at)) | sign_at(text, at)
}

// whether a word stands at a place
pub fn begins_at(text: &[u8], at: usize, word: &[u8]) -> bool
    ensures { result ≡ begins word.now (drop at text.now) }
{
    behind(text, at).starts_with(word)
}
