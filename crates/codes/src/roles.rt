// The roles of names and of rules: what the parser leaves in the binding column.
pub const NONE: u32 = 0;

pub const IN_EXPRESSION: u32 = 1;

pub const TYPE_NAME: u32 = 2;

pub const RENAMED_TYPE: u32 = 3;

pub const SELECT_NAME: u32 = 4;

pub const SUPERTYPE_NAME: u32 = 5;

pub const LABELLED: u32 = 1;

pub const UNLABELLED: u32 = 2;
