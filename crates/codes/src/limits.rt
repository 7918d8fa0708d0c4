// The limits of the language.

// The bytes of a file.
pub const BYTES: u32 = 65536;

// The largest integer of a literal, and how many digits it has: with fewer a number is below it.
pub const INTEGER: u64 = 9223372036854775807;

pub const INTEGER_DIGITS: usize = 19;

// The bits of a binary.
pub const BITS: usize = 63;

// The bytes of a string.
pub const STRING_BYTES: usize = 255;

// The brackets that are open at once.
pub const NESTING: usize = 64;
