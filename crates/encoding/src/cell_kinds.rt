// The kinds of a table's cells, as specs/Kinds has them (docs/TABLE.md lists all). Numbers leave room between classes, and each place where a
// cell may stand takes one range of them. Where a length may be a constant or a number, the kind with BY, the next one, is that of a number.
// kept: numbers: they are a table's bytes (the C interface, docs/TABLE.md), in classes that readers take by ranges; an enum of them would be made
// from a byte and then matched again into what it stands for
pub const NOTHING: u8 = 0;

// items, from PLUS to LAST_ITEM: operators, signs of a first term, operands from CONSTANT on
pub const PLUS: u8 = 16;

pub const MINUS: u8 = 17;

pub const TIMES: u8 = 18;

pub const OVER: u8 = 19;

pub const POSITIVE: u8 = 24;

pub const NEGATIVE: u8 = 25;

pub const CONSTANT: u8 = 32;

pub const NUMBER: u8 = 33;

pub const LENGTH: u8 = 34;

// NUMBER of a string, and of the first bytes of one
pub const NUMBER_OF: u8 = 36;

pub const NUMBER_OF_FIRST: u8 = 37;

pub const NUMBER_OF_FIRST_BY: u8 = 38;

pub const LAST_ITEM: u8 = 63;

// a string, and the first bytes of one; these go up to LAST_PART
pub const STRING: u8 = 64;

pub const FIRST: u8 = 65;

pub const FIRST_BY: u8 = 66;

pub const LAST_PART: u8 = 79;

// elements, from STRING to LAST_ELEMENT: strings, and these
pub const LITERAL: u8 = 80;

// STRING(n,m)
pub const TEXT: u8 = 81;

pub const TEXT_BY: u8 = 82;

pub const LAST_ELEMENT: u8 = 95;

// elements of a pattern, from STRING to LAST_FILLER: elements, and fillers, free and fixed
pub const FREE: u8 = 96;

pub const FIXED: u8 = 97;

pub const FIXED_BY: u8 = 98;

pub const LAST_FILLER: u8 = 111;

// a row's range of items or elements
pub const RANGE: u8 = 112;
