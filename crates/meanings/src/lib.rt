// What a name in an expression means, by the dictionary of a file and by what its owner inherits.
#![tactic(auto)]

ghost use Rattle.meanings.specs.Use.{ValueMeans, ByNode, InheritedOrValue, InDeclaration};

use columns::{get_or, index};
use scopes::look_ups::{Meaning, declaration_meant, own_meant};

// An attribute, a label or an item by its node, or a declaration by its number among these.
#[derive(Clone, Copy, Debug, PartialEq, Eq)]
pub enum Use {
    Nothing,
    Several,
    Node(usize),
    Declaration(usize),
}

// An entry by its node.
fn by_node(nodes: &[u32], meaning: Meaning) -> Use
    ensures { ByNode nodes.now meaning result }
{
    match meaning {
        Meaning::Nothing => Use::Nothing,
        Meaning::One(e) => Use::Node(index(get_or(nodes, e, 0))),
        Meaning::Several => Use::Several,
    }
}

// In a schema: one of its declarations, else what the symbol means among its items.
pub fn value_meant(
    keys: &[u64],
    heads: &[u32],
    next: &[u32],
    item: Use,
    schema: usize,
    symbol: u32,
) -> Use
    ensures { ValueMeans keys.now heads.now next.now item schema symbol result }
{
    let declared = declaration_meant(keys, heads, next, schema, symbol);
    match declared {
        Meaning::Nothing => item,
        Meaning::One(v) => Use::Declaration(v),
        Meaning::Several => Use::Several,
    }
}

// What is not declared in the owner: what it inherits, else what it means in the schema.
fn inherited_or_value(
    keys: &[u64],
    heads: &[u32],
    next: &[u32],
    inherited: Use,
    item: Use,
    schema: usize,
    symbol: u32,
) -> Use
    ensures { InheritedOrValue keys.now heads.now next.now inherited item schema symbol result }
{
    match inherited {
        Use::Nothing => value_meant(keys, heads, next, item, schema, symbol),
        Use::Several | Use::Node(_) | Use::Declaration(_) => inherited,
    }
}

// In a declaration of a schema: the nearest of an own attribute or label, an inherited attribute, a declaration of the schema, an
// item. What the symbol inherits and what it means among the items of the schema is given.
pub fn use_meant(
    keys: &[u64],
    nodes: &[u32],
    heads: &[u32],
    next: &[u32],
    inherited: Use,
    item: Use,
    owner: usize,
    schema: usize,
    symbol: u32,
) -> Use
    ensures { InDeclaration keys.now nodes.now heads.now next.now inherited item owner schema symbol result }
{
    let own = own_meant(keys, heads, next, owner, symbol);
    match own {
        Meaning::Nothing => inherited_or_value(keys, heads, next, inherited, item, schema, symbol),
        Meaning::One(_) => by_node(nodes, own),
        Meaning::Several => by_node(nodes, own),
    }
}
