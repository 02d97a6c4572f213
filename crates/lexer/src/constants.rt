// Constants: the value of the digits at a place, if it is in range, with the place behind it.
// Assumes nothing.
ghost use Rattle.lexer.specs.Constants.{ConstantRead, ReadsSigned};

use crate::names::digit_count;
use crate::{sign_at, stands_at};
use numbers::Int;

// a constant with the place behind it: of digits alone, or with its sign
#[derive(Clone, Copy)]
pub struct Constant<T> {
    pub value: T,
    pub next: usize,
}

// the constant at a place
pub fn unsigned(text: &[u8], at: usize) -> Option<Constant<u64>>
    ensures { ConstantRead text.now at result }
{
    let n = digit_count(text, at);
    if n == 0 {
        return None;
    }
    let next = at + n;
    let value = numbers::decimal_of(&text[at..next])?;
    Some(Constant { value, next })
}

// the constant at a place, behind its sign if it has one
pub fn signed(text: &[u8], at: usize) -> Option<Constant<Int>>
    ensures { ReadsSigned text.now at result }
{
    let negative = stands_at(text, at, b'-');
    let from = at + sign_at(text, at) as usize;
    let Constant { value, next } = unsigned(text, from)?;
    let size = numbers::int_of(value);
    let value = if negative {
        numbers::negate(size)
    } else {
        size
    };
    Some(Constant { value, next })
}
