// From a deck's bytes to its statements, one after the other: a comment or blank line, or a statement packed from all its lines.
// Assumes nothing.
#![tactic(auto)]

pub mod keys;
pub mod line;
pub mod packed;

ghost use Rattle.std.specs.Prelude.{◌≡◌};
ghost use Rattle.card_reader.specs.Lines.{joins};
ghost use Rattle.card_reader.specs.Gathering.{LineAdded, LineAddable, Gathers, Joined, JoinedAll, Readable, DeckRoom, broken_off, nothing_from};

use base::DECK;
use classes::is_blank;
use packed::{Packing, Place};

// a statement while its lines are joined: whether they are sound, whether the last one joins the next, what is packed, how many
// lines were taken and where the next one starts
// kept: two truths with no value beside them: whether all lines are sound by 3, and whether column 9 joins the next one
#[derive(Clone, Copy)]
pub struct Joining {
    pub sound: bool,
    pub more: bool,
    pub packing: Packing,
    pub lines: usize,
    pub next: usize,
}

// a statement by its packed text: the key of its label, the length of that text, whether its literals are whole
// kept: 0 is the key of the empty name, which a blank label field is by document 01
// kept: whole is a truth beside the length: where literals aren't whole the kind is judged by 4 all the same, and by 5 only then
#[derive(Clone, Copy)]
pub struct PackedStatement {
    pub label: u64,
    pub length: usize,
    pub whole: bool,
}

// an entry of the deck, a statement or else a comment or blank line; whether it is sound, how many lines it has and where the next one starts
// kept: Joining has some of this too, of a statement under way: an entry is what it comes to, with its label and no packing
// kept: sound is a truth, and gather's answer no Result: the second pass takes the entries of an accepted deck and doesn't ask
#[derive(Clone, Copy)]
pub struct Gathered {
    pub statement: Option<PackedStatement>,
    pub sound: bool,
    pub lines: usize,
    pub next: usize,
}

// whether a byte in column 9 joins the next line
fn joins(b: u8) -> bool
    ensures { result ≡ joins b }
{
    !is_blank(b) && b != b'/'
}

impl Joining {
    // nothing of a statement yet, whose first line starts at from
    fn nothing(from: usize) -> Joining
        ensures { result ≡ nothing_from from }
    {
        Joining {
            sound: true,
            more: true,
            packing: Packing {
                place: Place::Outside,
                whole: true,
                length: 0,
            },
            lines: 0,
            next: from,
        }
    }

    // adds a line that is no comment and not blank
    fn add_line(self, line: &[u8], next: usize, text: &mut [u8; DECK]) -> Joining
        requires { LineAddable line.now next text.old self }
        ensures { LineAdded line.now next text.old self text.new result }
    {
        let mark = line::column9(line);
        let packing = self.packing.pack(line::text_of(line), text);
        Joining {
            sound: self.sound & (line::sound_line(line) & (mark != b'/')),
            more: joins(mark),
            packing,
            lines: self.lines + 1,
            next,
        }
    }

    // the statement ends with a joined line that is a comment, blank or missing
    fn broken_off(self) -> Joining
        ensures { result ≡ broken_off self }
    {
        Joining {
            sound: false,
            more: false,
            ..self
        }
    }

    // joins the next line of the deck
    fn join_line(self, deck: &[u8], text: &mut [u8; DECK]) -> Joining
        requires { DeckRoom deck.now text.old self }
        ensures { Joined deck.now text.old self text.new result }
    {
        if deck.len() <= self.next {
            return self.broken_off();
        }
        let end = line::line_end(deck, self.next);
        let line = &deck[self.next..end];
        if line::is_skipped(line) {
            return self.broken_off();
        }
        self.add_line(line, end + 1, text)
    }

    // joins lines as long as column 9 says so
    fn join_lines(self, deck: &[u8], text: &mut [u8; DECK]) -> Joining
        requires { DeckRoom deck.now text.old self }
        ensures { JoinedAll deck.now text.old self text.new result }
    {
        let mut s = self;
        // kept: no range: column 9 of each line says whether one more is joined, and each says where the next begins
        while s.more {
            s = s.join_line(deck, text);
        }
        s
    }
}

// the entry that starts with the line at from; of a statement its packed text is in text
// kept: the text is the front of one array for all entries: each byte is written, then counted or not (step); a push would be asked for each byte
// whether it is kept and whether there is room
pub fn gather(deck: &[u8], from: usize, text: &mut [u8; DECK]) -> Gathered
    requires { Readable deck.now from text.old }
    ensures { Gathers deck.now from text.new result }
{
    let end = line::line_end(deck, from);
    let line = &deck[from..end];
    if line::is_skipped(line) {
        return Gathered {
            statement: None,
            sound: line::sound_line(line),
            lines: 1,
            next: end + 1,
        };
    }
    let label = keys::key_of(line);
    let first = Joining::nothing(from).add_line(line, end + 1, text);
    let s = first.join_lines(deck, text);
    Gathered {
        statement: Some(PackedStatement {
            label,
            length: s.packing.length,
            whole: s.packing.whole & (s.packing.place == Place::Outside),
        }),
        sound: s.sound,
        lines: s.lines,
        next: s.next,
    }
}
