// The class of a byte, by a table of 256 entries, and each question about it that code asks.
// Assumes nothing.
#![tactic(auto)]

ghost use Rattle.std.specs.Prelude.{◌≡◌};
ghost use Rattle.cards.specs.Bytes.{class_of, is_blank, is_digit, is_letter, is_name_byte, is_refused};
ghost use Rattle.classes.specs.Numbers.{class_number};
ghost use Rattle.values.specs.Conversion.{is_digit_or_blank};

// the number of each class
// kept: numbers: document 01 asks for a table of 256 numbers (F7), and an enum would have these six names and the same class_number as its contract
const LETTER: u8 = 0;

const DIGIT: u8 = 1;

const BLANK: u8 = 2;

const MARK: u8 = 3;

// other data
const OTHER: u8 = 4;

const REFUSED: u8 = 5;

// the class of each byte
static CLASSES: [u8; 256] = [
    // 0 to 15
    REFUSED, REFUSED, REFUSED, REFUSED, REFUSED, REFUSED, REFUSED, REFUSED, REFUSED, REFUSED,
    REFUSED, REFUSED, REFUSED, REFUSED, REFUSED, REFUSED,
    // 16 to 31
    REFUSED, REFUSED, REFUSED, REFUSED, REFUSED, REFUSED, REFUSED, REFUSED, REFUSED, REFUSED,
    REFUSED, REFUSED, REFUSED, REFUSED, REFUSED, REFUSED,
    // 32 to 47
    BLANK, OTHER, MARK, OTHER, MARK, OTHER, OTHER, OTHER, MARK, MARK, MARK, MARK, MARK, MARK,
    OTHER, MARK,
    // 48 to 63
    DIGIT, DIGIT, DIGIT, DIGIT, DIGIT, DIGIT, DIGIT, DIGIT, DIGIT, DIGIT, OTHER, OTHER, MARK, MARK,
    MARK, OTHER,
    // 64 to 79
    OTHER, LETTER, LETTER, LETTER, LETTER, LETTER, LETTER, LETTER, LETTER, LETTER, LETTER, LETTER,
    LETTER, LETTER, LETTER, LETTER,
    // 80 to 95
    LETTER, LETTER, LETTER, LETTER, LETTER, LETTER, LETTER, LETTER, LETTER, LETTER, LETTER, MARK,
    OTHER, MARK, OTHER, OTHER,
    // 96 to 111
    OTHER, OTHER, OTHER, OTHER, OTHER, OTHER, OTHER, OTHER, OTHER, OTHER, OTHER, OTHER, OTHER,
    OTHER, OTHER, OTHER,
    // 112 to 127
    OTHER, OTHER, OTHER, OTHER, OTHER, OTHER, OTHER, OTHER, OTHER, OTHER, OTHER, OTHER, OTHER,
    OTHER, OTHER, REFUSED,
    // 128 to 143
    REFUSED, REFUSED, REFUSED, REFUSED, REFUSED, REFUSED, REFUSED, REFUSED, REFUSED, REFUSED,
    REFUSED, REFUSED, REFUSED, REFUSED, REFUSED, REFUSED,
    // 144 to 159
    REFUSED, REFUSED, REFUSED, REFUSED, REFUSED, REFUSED, REFUSED, REFUSED, REFUSED, REFUSED,
    REFUSED, REFUSED, REFUSED, REFUSED, REFUSED, REFUSED,
    // 160 to 175
    REFUSED, REFUSED, REFUSED, REFUSED, REFUSED, REFUSED, REFUSED, REFUSED, REFUSED, REFUSED,
    REFUSED, REFUSED, REFUSED, REFUSED, REFUSED, REFUSED,
    // 176 to 191
    REFUSED, REFUSED, REFUSED, REFUSED, REFUSED, REFUSED, REFUSED, REFUSED, REFUSED, REFUSED,
    REFUSED, REFUSED, REFUSED, REFUSED, REFUSED, REFUSED,
    // 192 to 207
    REFUSED, REFUSED, REFUSED, REFUSED, REFUSED, REFUSED, REFUSED, REFUSED, REFUSED, REFUSED,
    REFUSED, REFUSED, REFUSED, REFUSED, REFUSED, REFUSED,
    // 208 to 223
    REFUSED, REFUSED, REFUSED, REFUSED, REFUSED, REFUSED, REFUSED, REFUSED, REFUSED, REFUSED,
    REFUSED, REFUSED, REFUSED, REFUSED, REFUSED, REFUSED,
    // 224 to 239
    REFUSED, REFUSED, REFUSED, REFUSED, REFUSED, REFUSED, REFUSED, REFUSED, REFUSED, REFUSED,
    REFUSED, REFUSED, REFUSED, REFUSED, REFUSED, REFUSED,
    // 240 to 255
    REFUSED, REFUSED, REFUSED, REFUSED, REFUSED, REFUSED, REFUSED, REFUSED, REFUSED, REFUSED,
    REFUSED, REFUSED, REFUSED, REFUSED, REFUSED, REFUSED,
];

// the number of a byte's class
pub fn class_of(b: u8) -> u8
    ensures { result ≡ class_number (class_of b) }
{
    CLASSES[b as usize]
}

pub fn is_letter(b: u8) -> bool
    ensures { result ≡ is_letter b }
{
    class_of(b) == LETTER
}

pub fn is_digit(b: u8) -> bool
    ensures { result ≡ is_digit b }
{
    class_of(b) == DIGIT
}

// whether a byte may stand in a name
pub fn is_letter_or_digit(b: u8) -> bool
    ensures { result ≡ is_name_byte b }
{
    let class = class_of(b);
    (class == LETTER) | (class == DIGIT)
}

// the table's own question: a card's bytes are looked at together, by their range
pub fn is_refused(b: u8) -> bool
    ensures { result ≡ is_refused (class_of b) }
{
    class_of(b) == REFUSED
}

// It compares, since it is asked of every byte of a card. The table says the same.
pub fn is_blank(b: u8) -> bool
    ensures { result ≡ is_blank b }
{
    b == b' '
}

// whether a byte may stand in a number, as NUMERIC asks; it compares too
pub fn is_digit_or_blank(b: u8) -> bool
    ensures { result ≡ is_digit_or_blank b }
{
    if b < b'0' { is_blank(b) } else { b <= b'9' }
}
