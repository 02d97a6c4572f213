// A contract line, field by field: whether it has its form, without or with a currency, and how long its contract is. Its bytes are compared,
// not looked up in the class table: a register's check asks of each byte of 256 lines.
// Assumes nothing.
#![tactic(auto)]

ghost use Rattle.std.specs.Prelude.{◌||◌, ◌≡◌};
ghost use Rattle.std.specs.Char.{is_ascii_digit, is_ascii_uppercase};
ghost use Rattle.std.specs.List.{prefix_len};
ghost use Rattle.std.specs.Option.{option_map};
ghost use Rattle.register.specs.Line.{is_currency};
ghost use Rattle.register_lines.specs.Fields.{ContractFound, FormFound, behind_comma, behind_grain, behind_number, fields_ended, number_run};

use register::CURRENCY;

// the most bytes of a contract, the bytes of a grain, the most digits of tonnes and price
const CONTRACT: usize = 8;

const GRAIN: usize = 2;

const TONNES: usize = 5;

const PRICE: usize = 6;

// how many fields a line has: four, as before the register is opened, or five, the fifth a currency
#[derive(Clone, Copy, PartialEq, Eq)]
pub enum Fields {
    Four,
    Five,
}

// a line that has its form: how many bytes its contract has, and how many fields it has
#[derive(Clone, Copy)]
pub struct Form {
    pub contract: usize,
    pub fields: Fields,
}

// how many letters bytes begin with
// kept: a chain here, in digits_len and contract_length, by its test alone; one function of a test would only wrap take_while and count
fn letters_len(bytes: &[u8]) -> usize
    ensures { result ≡ prefix_len is_ascii_uppercase bytes.now }
{
    bytes.iter().take_while(|b| b.is_ascii_uppercase()).count()
}

// how many digits
fn digits_len(bytes: &[u8]) -> usize
    ensures { result ≡ prefix_len is_ascii_digit bytes.now }
{
    bytes.iter().take_while(|b| b.is_ascii_digit()).count()
}

// whether digits are a number of at most so many, without a leading zero
#[tactic(auto, unfolding(cards::specs::Bytes::between))]
fn is_number(digits: &[u8], most: usize) -> bool
    ensures { result ≡ number_run most digits.now }
{
    (1..=most).contains(&digits.len()) && digits[0] != b'0'
}

// whether the bytes are three letters
pub fn is_currency(v: &[u8]) -> bool
    ensures { result ≡ is_currency v.now }
{
    v.len() == CURRENCY && v.iter().all(|b| b.is_ascii_uppercase())
}

// what stands behind a comma that comes first
fn behind_comma(rest: &[u8]) -> Option<&[u8]>
    ensures { option_map (λ r. r.now) result ≡ behind_comma rest.now }
{
    rest.strip_prefix(b",")
}

// a comma, and behind it a number of at most so many digits: what follows it
fn behind_number(rest: &[u8], most: usize) -> Option<&[u8]>
    ensures { option_map (λ r. r.now) result ≡ behind_number most rest.now }
{
    let field = behind_comma(rest)?;
    let (digits, behind) = field.split_at(digits_len(field));
    is_number(digits, most).then_some(behind)
}

// a comma, and behind it the grain: what follows it
fn behind_grain(rest: &[u8]) -> Option<&[u8]>
    ensures { option_map (λ r. r.now) result ≡ behind_grain rest.now }
{
    let field = behind_comma(rest)?;
    let (letters, behind) = field.split_at(letters_len(field));
    (letters.len() == GRAIN).then_some(behind)
}

// how many fields a line has by what stands behind its price: four where nothing does, five where it is a comma and a currency
#[inline]
fn ending_on(rest: &[u8]) -> Option<Fields>
    ensures { result ≡ fields_ended rest.now }
{
    if rest.is_empty() {
        return Some(Fields::Four);
    }
    let currency = behind_comma(rest)?;
    is_currency(currency).then_some(Fields::Five)
}

// how many letters and digits a line begins with: of a line that has its form, those of its contract
pub fn contract_length(line: &[u8]) -> usize
    ensures { result ≡ prefix_len (λ b. is_ascii_uppercase b || is_ascii_digit b) line.now }
{
    line.iter()
        .take_while(|b| b.is_ascii_uppercase() || b.is_ascii_digit())
        .count()
}

// how many bytes the contract has that a line begins with: 1 to 8 letters and digits; None where it begins with fewer or more of them
fn contract_on(line: &[u8]) -> Option<usize>
    ensures { ContractFound line.now result }
{
    let n = contract_length(line);
    (1..=CONTRACT).contains(&n).then_some(n)
}

// the form of a line, if it is good
#[inline]
pub fn form_of(line: &[u8]) -> Option<Form>
    ensures { FormFound line.now result }
{
    let contract = contract_on(line)?;
    let behind = behind_grain(&line[contract..])?;
    let price = behind_number(behind, TONNES)?;
    let end = behind_number(price, PRICE)?;
    let fields = ending_on(end)?;
    Some(Form { contract, fields })
}
