// The numbers of declared types (`declared_number` of express, specs/kinds/DeclaredColumn): an enumeration has the number of
// the node of its type, and so many more.
pub const OTHER: u32 = 0;

pub const BOOLEAN: u32 = 1;

pub const INTEGER: u32 = 2;

pub const LOGICAL: u32 = 3;

pub const BINARY: u32 = 4;

pub const STRING: u32 = 5;

pub const FIRST_ENUMERATION: u32 = 6;

// The last node whose number as an enumeration fits into 32 bits.
pub const LAST_NODE: usize = 4294967289;
