// The replies.
pub const ACCEPTED: u8 = 0;

pub const TOO_LONG: u8 = 1;

pub const NO_TOKEN: u8 = 2;

pub const TOO_LARGE: u8 = 3;

pub const UNEXPECTED: u8 = 4;

pub const TOO_DEEP: u8 = 5;

pub const TOKENS_SHORT: u8 = 6;

pub const NODES_SHORT: u8 = 7;

pub const ANSWERS_SHORT: u8 = 8;

pub const REPEATED: u8 = 9;

pub const NOT_FOUND: u8 = 10;

pub const WRONG_SORT: u8 = 11;

pub const AMBIGUOUS: u8 = 12;

pub const CYCLE: u8 = 13;

pub const NOT_EVALUATED: u8 = 14;

pub const MISFIT: u8 = 15;

// The ends have the numbers between.
pub const ROOM_SHORT: u8 = 20;
