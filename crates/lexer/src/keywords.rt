// What a packed statement is, by its beginning alone: a replacement, or the longest keyword that begins it.
// Assumes nothing.
ghost use Rattle.std.specs.Prelude.{[], ◌∷◌, ◌≡◌};
ghost use Rattle.syntax.specs.Keywords.{is_replacement, leading, longest, keywords};
ghost use Rattle.lexer.specs.Kinds.{kind_of, leads};

use crate::names::{bound_length, name_length};
use crate::stands_at;

// the kind of a statement, by its beginning alone
#[derive(Clone, Copy, PartialEq, Eq)]
pub enum Kind {
    Replacement,
    Number,
    Program,
    End,
    Goto,
    Exit,
    If,
    Scan,
    Backscan,
    Read,
    Write,
    Print,
    Routine,
    Execute,
    EndRoutine,
    Return,
    // kept: a kind, as document 01's UNKNOWN is one, and no None: 4 is judged by it too, before 5
    Unknown,
}

// a kind with how many bytes its keyword has
#[derive(Clone, Copy)]
pub struct Keyword {
    pub kind: Kind,
    pub size: usize,
}

// the keywords with their kinds
static KEYWORDS: [(&[u8], Kind); 15] = [
    (b"NUMBER", Kind::Number),
    (b"PROGRAM", Kind::Program),
    (b"END", Kind::End),
    (b"GOTO", Kind::Goto),
    (b"EXIT", Kind::Exit),
    (b"IF", Kind::If),
    (b"SCAN", Kind::Scan),
    (b"BACKSCAN", Kind::Backscan),
    (b"READ", Kind::Read),
    (b"WRITE", Kind::Write),
    (b"PRINT", Kind::Print),
    (b"ROUTINE", Kind::Routine),
    (b"EXECUTE", Kind::Execute),
    (b"ENDROUTINE", Kind::EndRoutine),
    (b"RETURN", Kind::Return),
];

// whether a name, perhaps with `$` and a length, stands before `=`
pub fn is_replacement(text: &[u8]) -> bool
    ensures { result ≡ is_replacement text.now }
{
    let Some(n) = name_length(text, 0) else {
        return false;
    };
    if stands_at(text, n, b'=') {
        return true;
    }
    if !stands_at(text, n, b'$') {
        return false;
    }
    let Some(m) = bound_length(text, n + 1) else {
        return false;
    };
    stands_at(text, n + 1 + m, b'=')
}

// A word that begins the statement and is longer than the best one so far, else that one. The first bytes alone tell most words apart, and
// sooner.
fn longer(text: &[u8], word: &[u8], kind: Kind, best: Keyword) -> Keyword
    ensures { leads result ≡ longest ((word.now, kind_of kind) ∷ []) text.now (leads best) }
{
    if text.first() != word.first() {
        return best;
    }
    if text.starts_with(word) && best.size < word.len() {
        return Keyword {
            kind,
            size: word.len(),
        };
    }
    best
}

// the longest keyword that begins the statement, and is longer than the best one so far, else that one
fn longest(text: &[u8], best: Keyword) -> Keyword
    ensures { leads result ≡ longest keywords text.now (leads best) }
{
    KEYWORDS
        .iter()
        .fold(best, |best, (word, kind)| longer(text, word, *kind, best))
}

// the kind of a statement, with how many bytes its keyword has
pub fn leading(text: &[u8]) -> Keyword
    ensures { leads result ≡ leading text.now }
{
    if is_replacement(text) {
        return Keyword {
            kind: Kind::Replacement,
            size: 0,
        };
    }
    let none = Keyword {
        kind: Kind::Unknown,
        size: 0,
    };
    longest(text, none)
}
