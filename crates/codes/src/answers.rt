// The kinds of answers: an end is its own kind.
pub const INDETERMINATE: u8 = 0;

pub const INTEGER: u8 = 1;

pub const LOGICAL: u8 = 2;

pub const BINARY: u8 = 3;

pub const ITEM: u8 = 4;

pub const STRING: u8 = 5;

// The numbers of logical answers.
pub const FALSE: u8 = 0;

pub const UNKNOWN: u8 = 1;

pub const TRUE: u8 = 2;
