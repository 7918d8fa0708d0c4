// What a file declares and where, as one dictionary over (sort, scope, symbol): its keys, and the look-ups in it.
#![tactic(auto)]

pub mod dictionary;
pub mod look_ups;

ghost use Rattle.std.specs.Prelude.{◌≡◌, ◌&&◌, ◌||◌};
ghost use Rattle.scopes.specs.Standing.{declares, is_member};
ghost use Rattle.scopes.specs.Range.{DeclarationAt};

use columns::{get_or, index};

// The sorts of keys, and a number above them all.
pub const NO_SORT: u64 = 0;

pub const SCHEMAS: u64 = 1;

pub const DECLARATIONS: u64 = 2;

pub const ITEMS_OF_TYPES: u64 = 3;

pub const MEMBERS: u64 = 4;

pub const SUPERTYPES: u64 = 5;

pub const SORTS: u64 = 8;

// Nodes and symbols are below this number.
pub const RADIX: u64 = 131072;

// What is known at a node: the declaration and the schema that it lies in, and how many entries come before its own, among
// the declarations and behind them.
#[derive(Clone, Copy)]
pub struct Here {
    pub owner: usize,
    pub schema: usize,
    pub vertex: usize,
    pub other: usize,
}

// How many entries the dictionary of a file has: declarations, and others behind them.
#[derive(Clone, Copy)]
pub struct Counts {
    pub declarations: usize,
    pub others: usize,
}

// A test and another, and a test or another, with no jump between the two: what nodes are changes too often to be foretold.
pub fn both(a: bool, b: bool) -> bool
    ensures { result ≡ (a && b) }
{
    a & b
}

pub fn either(a: bool, b: bool) -> bool
    ensures { result ≡ (a || b) }
{
    a | b
}

// Is it a constant, a type or an entity?
pub fn is_declaration(kind: u8) -> bool
    ensures { result ≡ declares kind }
{
    (kind == codes::nodes::CONSTANT) | (kind == codes::nodes::TYPE) | (kind == codes::nodes::ENTITY)
}

// Is it an attribute or a rule with a label?
pub fn is_scope_member(kind: u8, role: u32) -> bool
    ensures { result ≡ is_member kind role }
{
    kind == codes::nodes::ATTRIBUTE_NAME
        || kind == codes::nodes::DERIVED_ATTRIBUTE
        || kind == codes::nodes::RULE && role == codes::roles::LABELLED
}

// A constant, type or entity, by its number among these: its schema, its node, and the first node behind the declaration before it.
#[derive(Clone, Copy)]
pub struct Extent {
    pub schema: usize,
    pub from: usize,
    pub node: usize,
}

pub fn declaration(keys: &[u64], nodes: &[u32], vertex: usize) -> Extent
    ensures { DeclarationAt keys.now nodes.now vertex result }
{
    let schema = (get_or(keys, vertex, 0) / RADIX % RADIX) as usize;
    let node = index(get_or(nodes, vertex, 0));
    if vertex == 0 {
        return Extent {
            schema,
            from: 0,
            node,
        };
    }
    let from = index(get_or(nodes, vertex - 1, 0)) + 1;
    Extent { schema, from, node }
}
