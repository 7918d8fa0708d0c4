// The kinds of nodes.
pub const INTEGER: u8 = 1;

pub const BINARY: u8 = 2;

pub const LOGICAL: u8 = 3;

pub const INDETERMINATE: u8 = 4;

pub const OTHER: u8 = 5;

pub const NAME: u8 = 6;

pub const QUALIFIED_ITEM: u8 = 7;

pub const SELF_REFERENCE: u8 = 8;

pub const UNARY: u8 = 9;

pub const TWO_OPERAND: u8 = 10;

pub const INTERVAL: u8 = 11;

pub const INTERVAL_OPERATOR: u8 = 12;

pub const SIMPLE_TYPE: u8 = 13;

pub const ITEM: u8 = 14;

pub const ENUMERATION: u8 = 15;

pub const SELECT: u8 = 16;

pub const CONSTANT: u8 = 17;

pub const TYPE: u8 = 18;

pub const ATTRIBUTE_NAME: u8 = 19;

pub const ATTRIBUTE_GROUP: u8 = 20;

pub const OPTIONAL_GROUP: u8 = 21;

pub const DERIVED_ATTRIBUTE: u8 = 22;

pub const RULE: u8 = 23;

pub const ENTITY: u8 = 24;

pub const SCHEMA: u8 = 25;

pub const FILE: u8 = 26;
