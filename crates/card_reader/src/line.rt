// One line of a deck: where it ends, whether it is sound, a comment or blank, and its parts by columns.
// Assumes nothing.
ghost use Rattle.std.specs.Prelude.{not, ◌≡◌, ◌<◌, length, take, drop};
ghost use Rattle.base.specs.Current.{current};
ghost use Rattle.base.specs.Lists.{all};
ghost use Rattle.cards.specs.Bytes.{between, class_of, is_refused};
ghost use Rattle.cards.specs.Cards.{column9, is_blank_line, is_comment, sound_line, statement_text};
ghost use Rattle.card_reader.specs.Lines.{LineEnds, is_skipped};

use base::LINE;
use classes::{is_blank, is_refused};

// the columns that count
const COLUMNS: usize = 72;

// where the line that starts at from ends: at its byte 10, or at the end of the deck; an empty line is told by its first byte
pub fn line_end(deck: &[u8], from: usize) -> usize
    requires { from < length deck.now }
    ensures { LineEnds deck.now from result }
{
    if deck[from] == b'\n' {
        return from;
    }
    search::next_byte(deck, b'\n', from)
}

// Whether all bytes are from 32 to 126: a first look, before the class of each is asked for.
// kept: a fold that leaves no turn out becomes vector code: all takes 6 times as long over 80 bytes
fn in_range(line: &[u8]) -> bool
    ensures { result ≡ all (between 32 126) line.now }
{
    line.iter()
        .fold(true, |within, b| within & ((b' ' <= *b) & (*b <= b'~')))
}

// whether no byte is refused, by the class of each
fn none_refused(line: &[u8]) -> bool
    ensures { result ≡ all (λ b. not (is_refused (class_of b))) line.now }
{
    line.iter().all(|b| !is_refused(*b))
}

// whether 3 finds the line sound: at most 80 bytes, none of them refused
pub fn sound_line(line: &[u8]) -> bool
    ensures { result ≡ sound_line line.now }
{
    if LINE < line.len() {
        return false;
    }
    in_range(line) || none_refused(line)
}

// the first n bytes, or all of them
pub fn front(line: &[u8], n: usize) -> &[u8]
    ensures { result.now ≡ take n line.now }
{
    &line[..n.min(line.len())]
}

// the bytes behind the first n
pub fn behind(line: &[u8], n: usize) -> &[u8]
    ensures { result.now ≡ drop n line.now }
{
    &line[n.min(line.len())..]
}

pub fn is_comment(line: &[u8]) -> bool
    ensures { result ≡ is_comment line.now }
{
    line.starts_with(b"*")
}

// whether columns 1 to 72 are blank
pub fn is_blank_line(line: &[u8]) -> bool
    ensures { result ≡ is_blank_line current line.now }
{
    front(line, COLUMNS).iter().all(|b| is_blank(*b))
}

// whether the line is a comment or blank
pub fn is_skipped(line: &[u8]) -> bool
    ensures { result ≡ is_skipped line.now }
{
    is_comment(line) || is_blank_line(line)
}

// the byte that joins the next line, a blank if the line is shorter
pub fn column9(line: &[u8]) -> u8
    ensures { result ≡ column9 current line.now }
{
    front(line, COLUMNS).get(8).copied().unwrap_or(b' ')
}

// columns 10 to 72
pub fn text_of(line: &[u8]) -> &[u8]
    ensures { result.now ≡ statement_text current line.now }
{
    behind(front(line, COLUMNS), 9)
}
