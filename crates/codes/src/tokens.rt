// The kinds of tokens.
pub const NONE: u8 = 0;

pub const WORD: u8 = 1;

pub const INTEGER: u8 = 2;

pub const REAL: u8 = 3;

pub const STRING: u8 = 4;

pub const BINARY: u8 = 5;

pub const SYMBOL: u8 = 6;
