// The kinds of a table's steps, as specs/Kinds has them. Numbers leave room between classes.
// kept: numbers, as in cell_kinds
pub const SET_NUMBER: u8 = 16;

pub const SET_STRING: u8 = 17;

pub const GOTO: u8 = 32;

pub const FINISH: u8 = 33;

pub const EXECUTE: u8 = 34;

pub const RETURN: u8 = 35;

// IF NULL, IF NUMERIC, and IF of two operands
pub const NULL: u8 = 48;

pub const NUMERIC: u8 = 49;

pub const COMPARE: u8 = 50;

// SCAN and BACKSCAN, without a replacement and with one
pub const SCAN: u8 = 64;

pub const REPLACE: u8 = 65;

pub const READ: u8 = 80;

pub const WRITE: u8 = 81;
