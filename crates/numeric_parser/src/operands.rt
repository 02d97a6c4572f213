// Operands: names, constants, LENGTH and NUMBER, each read as a cell of the table; and what all parsers use: words and marks passed, ranges packed.
// Assumes nothing.
// kept: text, names, cursor and in lib.rt the table are passed one by one, with ReaderReady or InText as a clause. In one struct with ReaderReady
// as a ghost field each function has to promise that the text stays, and proofs grow by half, by three quarters with `&mut`: tried, in four forms
ghost use Rattle.std.specs.Prelude.{Some, ◌≡◌, ◌+◌, ◌≤◌, ◌<◌};
ghost use Rattle.encoding.specs.Table.{range_value};
ghost use Rattle.numeric_parser.specs.Operands.{ReaderReady, cursor_moved, NameRead, NumberRead, StringRead, ConstantRead, SignedRead};
ghost use Rattle.numeric_parser.specs.Operands.{InText, BoundRead, PartRead, behind_word, behind_mark, behind_parenthesis, CalledRead, PlainRead};
ghost use Rattle.symbols.specs.Bounds.{far_enough};

use classes::is_digit;
use encoding::cells::Cell;
use encoding::{RANGE_STEP, cell_kinds};
use lexer::constants::{signed, unsigned};
use lexer::names::{key_of, name_length};
use lexer::{begins_at, byte_at, stands_at};
use symbols::known::Known;
use symbols::tags::{Role, Tag};
use symbols::{BIAS, Cursor, Mentioned, with_bias};

// the cursor so many bytes further
pub fn skip(c: Cursor, n: usize) -> Cursor
    requires { c.at + n ≤ far_enough }
    ensures { result ≡ cursor_moved c n }
{
    Cursor { at: c.at + n, ..c }
}

// the cursor behind a word, if it stands here
pub fn behind_word(text: &[u8], c: Cursor, word: &[u8]) -> Option<Cursor>
    requires { InText text.now c }
    ensures { result ≡ behind_word text.now word.now c }
{
    if !begins_at(text, c.at, word) {
        return None;
    }
    Some(skip(c, word.len()))
}

// the cursor behind a mark, if it stands here
pub fn marked(text: &[u8], c: Cursor, mark: u8) -> Option<Cursor>
    requires { InText text.now c }
    ensures { result ≡ behind_mark text.now mark c }
{
    stands_at(text, c.at, mark).then_some(skip(c, 1))
}

// a range as its cell has it: from a place on so many, and so many more behind them
#[tactic(auto, unfolding(encoding::specs::Table::range_value))]
pub fn range_value(from: usize, count: usize, more: usize) -> usize
    requires { (from ≤ far_enough) × ((count ≤ far_enough) × (more < 65_536)) }
    ensures { result ≡ range_value from count more }
{
    from + RANGE_STEP * (count + RANGE_STEP * more)
}

// a name, noted with a tag
#[tactic(auto, using(crate::specs::OperandLaws::name_got, crate::specs::OperandLaws::name_lost, crate::specs::OperandLaws::name_notable))]
pub fn read_name(
    text: &[u8],
    mentioned: &mut Mentioned,
    c: Cursor,
    tag: Tag,
) -> Option<(u64, Cursor)>
    requires { ReaderReady text.now c }
    ensures { NameRead text.now mentioned.old c tag result mentioned.new }
{
    let n = name_length(text, c.at)?;
    let key = key_of(text, c.at, n);
    Some((key, skip(mentioned.note(c, key, tag), n)))
}

// a number's name
#[tactic(auto, using(crate::specs::OperandLaws::place_lost, crate::specs::OperandLaws::number_broken, crate::specs::OperandLaws::number_got))]
pub fn read_number(
    text: &[u8],
    known: &Known,
    mentioned: &mut Mentioned,
    c: Cursor,
) -> Option<(u8, Cursor)>
    requires { ReaderReady text.now c }
    ensures { NumberRead text.now known.now mentioned.old c result mentioned.new }
{
    let (key, d) = read_name(text, mentioned, c, Tag::NumberUsed)?;
    Some((known.number_place(key), d))
}

// a string's name, with the role that it has in a SCAN
#[tactic(auto, using(crate::specs::OperandLaws::place_lost, crate::specs::OperandLaws::string_broken, crate::specs::OperandLaws::string_got))]
pub fn read_string(
    text: &[u8],
    known: &Known,
    mentioned: &mut Mentioned,
    c: Cursor,
    role: Option<Role>,
) -> Option<(u8, Cursor)>
    requires { ReaderReady text.now c }
    ensures { StringRead text.now known.now mentioned.old c role result mentioned.new }
{
    let (key, d) = read_name(text, mentioned, c, Tag::of_string(role))?;
    Some((known.string_place(key), d))
}

// a constant at the cursor, in the cell of a kind and a place
#[tactic(auto, using(lexer::specs::Laws::constant_range, lexer::specs::Laws::constant_ends))]
fn constant(text: &[u8], c: Cursor, kind: u8, place: u8) -> Option<(Cell, Cursor)>
    requires { InText text.now c }
    ensures { (m : Mentioned) → ReaderReady text.now c → ConstantRead text.now m c kind place result }
{
    let number = unsigned(text, c.at)?;
    let value = number.value as usize + BIAS;
    Some((Cell { kind, place, value }, skip(c, number.next - c.at)))
}

// the same of a constant that may have a sign
// kept: beside constant, whose number is of digits alone and no Int: it takes the bias as it stands
pub fn signed_constant(text: &[u8], c: Cursor, kind: u8, place: u8) -> Option<(Cell, Cursor)>
    requires { InText text.now c }
    ensures { (m : Mentioned) → ReaderReady text.now c → SignedRead text.now m c kind place result }
{
    let number = signed(text, c.at)?;
    let value = with_bias(number.value);
    Some((Cell { kind, place, value }, skip(c, number.next - c.at)))
}

// the n of S$n, in the cell of this kind and place, or for a number of the next kind
// kept: kinds are reckoned, here and in read_part: that of a whole string and the two of its first bytes stand in a row by the definition too, which
// takes the first (part_cell), as decoder's part_of does
#[tactic(auto, using(crate::specs::OperandLaws::bound_read))]
pub fn read_bound(
    text: &[u8],
    known: &Known,
    mentioned: &mut Mentioned,
    c: Cursor,
    kind: u8,
    place: u8,
) -> Option<(Cell, Cursor)>
    requires reader_ready { ReaderReady text.now c }
    requires kind_bound { kind < 200 }
    ensures { BoundRead text.now known.now mentioned.old c kind place result mentioned.new }
{
    if is_digit(byte_at(text, c.at)) {
        return constant(text, c, kind, place);
    }
    let (number, d) = read_number(text, known, mentioned, c)?;
    let cell = Cell {
        kind: kind + 1,
        place,
        value: number as usize,
    };
    Some((cell, d))
}

// a string or a substring, in a cell of this kind, or for the first bytes of one of the next two kinds
#[tactic(auto, using(crate::specs::OperandLaws::part_read))]
pub fn read_part(
    text: &[u8],
    known: &Known,
    mentioned: &mut Mentioned,
    c: Cursor,
    kind: u8,
    role: Option<Role>,
) -> Option<(Cell, Cursor)>
    requires reader_ready { ReaderReady text.now c }
    requires kind_bound { kind < 100 }
    ensures { PartRead text.now known.now mentioned.old c kind role result mentioned.new }
{
    let (place, d) = read_string(text, known, mentioned, c, role)?;
    if let Some(e) = marked(text, d, b'$') {
        return read_bound(text, known, mentioned, e, kind + 1, place);
    }
    let value = 0;
    Some((Cell { kind, place, value }, d))
}

// a cell with the cursor behind `)`, if that stands here
pub fn closed(text: &[u8], cell: Cell, c: Cursor) -> Option<(Cell, Cursor)>
    requires { InText text.now c }
    ensures { result ≡ behind_parenthesis text.now (Some (cell, c)) }
{
    let d = marked(text, c, b')')?;
    Some((cell, d))
}

// LENGTH, NUMBER or a number
pub fn read_called(
    text: &[u8],
    known: &Known,
    mentioned: &mut Mentioned,
    c: Cursor,
) -> Option<(Cell, Cursor)>
    requires { ReaderReady text.now c }
    ensures { CalledRead text.now known.now mentioned.old c result mentioned.new }
{
    let value = 0;
    if let Some(open) = behind_word(text, c, b"LENGTH(") {
        let (place, d) = read_string(text, known, mentioned, open, None)?;
        let kind = cell_kinds::LENGTH;
        return closed(text, Cell { kind, place, value }, d);
    }
    if let Some(open) = behind_word(text, c, b"NUMBER(") {
        let (cell, d) = read_part(text, known, mentioned, open, cell_kinds::NUMBER_OF, None)?;
        return closed(text, cell, d);
    }
    let (place, d) = read_number(text, known, mentioned, c)?;
    let kind = cell_kinds::NUMBER;
    Some((Cell { kind, place, value }, d))
}

// a factor but for parentheses
#[tactic(auto, using(crate::specs::OperandLaws::plain_constant, crate::specs::OperandLaws::plain_called))]
pub fn plain(
    text: &[u8],
    known: &Known,
    mentioned: &mut Mentioned,
    c: Cursor,
) -> Option<(Cell, Cursor)>
    requires { ReaderReady text.now c }
    ensures { PlainRead text.now known.now mentioned.old c result mentioned.new }
{
    if is_digit(byte_at(text, c.at)) {
        return constant(text, c, cell_kinds::CONSTANT, 0);
    }
    read_called(text, known, mentioned, c)
}
