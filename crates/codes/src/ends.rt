// The ends.
pub const OUTSIDE: u8 = 16;

pub const ZERO_DIVISOR: u8 = 17;

pub const NEGATIVE_POWER: u8 = 18;

pub const UNKNOWN_BOOLEAN: u8 = 19;
