// Kind and role of a row in one number, as the readers write it: the kind, and the role above its bits.
use crate::{nodes, roles};

// A role counts by so much.
pub const ROLE: u64 = 256;

pub const INTEGER: u64 = nodes::INTEGER as u64;

pub const BINARY: u64 = nodes::BINARY as u64;

pub const LOGICAL: u64 = nodes::LOGICAL as u64;

pub const INDETERMINATE: u64 = nodes::INDETERMINATE as u64;

pub const OTHER: u64 = nodes::OTHER as u64;

pub const QUALIFIED_ITEM: u64 = nodes::QUALIFIED_ITEM as u64;

pub const SELF_REFERENCE: u64 = nodes::SELF_REFERENCE as u64;

pub const UNARY: u64 = nodes::UNARY as u64;

pub const TWO_OPERAND: u64 = nodes::TWO_OPERAND as u64;

pub const INTERVAL: u64 = nodes::INTERVAL as u64;

pub const INTERVAL_OPERATOR: u64 = nodes::INTERVAL_OPERATOR as u64;

pub const SIMPLE_TYPE: u64 = nodes::SIMPLE_TYPE as u64;

pub const ITEM: u64 = nodes::ITEM as u64;

pub const ENUMERATION: u64 = nodes::ENUMERATION as u64;

pub const SELECT: u64 = nodes::SELECT as u64;

pub const CONSTANT: u64 = nodes::CONSTANT as u64;

pub const TYPE: u64 = nodes::TYPE as u64;

pub const ATTRIBUTE_NAME: u64 = nodes::ATTRIBUTE_NAME as u64;

pub const ATTRIBUTE_GROUP: u64 = nodes::ATTRIBUTE_GROUP as u64;

pub const OPTIONAL_GROUP: u64 = nodes::OPTIONAL_GROUP as u64;

pub const DERIVED_ATTRIBUTE: u64 = nodes::DERIVED_ATTRIBUTE as u64;

pub const ENTITY: u64 = nodes::ENTITY as u64;

pub const SCHEMA: u64 = nodes::SCHEMA as u64;

pub const FILE: u64 = nodes::FILE as u64;

pub const NAME_IN_EXPRESSION: u64 = nodes::NAME as u64 + ROLE * roles::IN_EXPRESSION as u64;

pub const TYPE_NAME: u64 = nodes::NAME as u64 + ROLE * roles::TYPE_NAME as u64;

pub const RENAMED_TYPE: u64 = nodes::NAME as u64 + ROLE * roles::RENAMED_TYPE as u64;

pub const SELECT_NAME: u64 = nodes::NAME as u64 + ROLE * roles::SELECT_NAME as u64;

pub const SUPERTYPE_NAME: u64 = nodes::NAME as u64 + ROLE * roles::SUPERTYPE_NAME as u64;

pub const LABELLED_RULE: u64 = nodes::RULE as u64 + ROLE * roles::LABELLED as u64;

pub const UNLABELLED_RULE: u64 = nodes::RULE as u64 + ROLE * roles::UNLABELLED as u64;
