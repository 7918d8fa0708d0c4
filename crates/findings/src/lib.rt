// What is found of a name in an expression, of `type.item`, and of other nodes that can be at fault: the fault, the binding, and
// the constant that is named.
#![tactic(auto)]

pub mod nodes;

ghost use Rattle.std.specs.Prelude.{◌≡◌};
ghost use Rattle.meanings.specs.Finding.{value_kind, Made, OneMore, TargetOf, NodeFinding, DeclarationFinding, UseFinding, TellsEnumeration, ItemFinding, TypeFinding, QualifiedFinding};

use columns::{get_or, index, number};
use faults::{Fault, Reply};
use meanings::Use;
use scopes::look_ups::{Meaning, declaration_meant, item_meant};
use type_names::Finding;

pub fn found(fault: Option<Fault>, binding: u32, target: u32) -> Finding
    ensures { Made fault binding target result }
{
    Finding {
        fault,
        binding,
        target,
    }
}

// The numbers that have no number of 32 bits above them.
const LAST: usize = 4294967295;

// One more, where it fits.
fn one_more(n: usize) -> u32
    ensures { OneMore n result }
{
    if LAST <= n { 0 } else { number(n + 1) }
}

// Has it a value: an attribute, a constant or an item?
fn is_value(kind: u8) -> bool
    ensures { result ≡ value_kind kind }
{
    kind == codes::nodes::ATTRIBUTE_NAME
        || kind == codes::nodes::DERIVED_ATTRIBUTE
        || kind == codes::nodes::CONSTANT
        || kind == codes::nodes::ITEM
}

// The target of a declaration's name: constants alone have one.
fn constant_target(kind: u8, vertex: usize) -> u32
    ensures { TargetOf kind vertex result }
{
    if kind == codes::nodes::CONSTANT {
        one_more(vertex)
    } else {
        0
    }
}

// A name that means a node that is no declaration.
fn node_finding(kinds: &[u8], node: usize, place: u32) -> Finding
    ensures { NodeFinding kinds.now node place result }
{
    let right = is_value(get_or(kinds, node, 0));
    found(faults::wrong_sort(right, place), one_more(node), 0)
}

// A name that means a declaration.
fn declaration_finding(kinds: &[u8], nodes: &[u32], vertex: usize, place: u32) -> Finding
    ensures { DeclarationFinding kinds.now nodes.now vertex place result }
{
    let node = index(get_or(nodes, vertex, 0));
    let kind = get_or(kinds, node, 0);
    found(
        faults::wrong_sort(is_value(kind), place),
        one_more(node),
        constant_target(kind, vertex),
    )
}

// A name in an expression, by what it means.
pub fn use_finding(kinds: &[u8], nodes: &[u32], meaning: Use, place: u32) -> Finding
    ensures { UseFinding kinds.now nodes.now meaning place result }
{
    match meaning {
        Use::Nothing => found(faults::fault_at(Reply::NotFound, place), 0, 0),
        Use::Several => found(faults::fault_at(Reply::Ambiguous, place), 0, 0),
        Use::Node(k) => node_finding(kinds, k, place),
        Use::Declaration(v) => declaration_finding(kinds, nodes, v, place),
    }
}

// Is the node a type that is declared as an enumeration?
fn is_enumeration(kinds: &[u8], sizes: &[u32], node: usize) -> bool
    ensures { TellsEnumeration kinds.now sizes.now node result }
{
    let first = node.saturating_sub(index(get_or(sizes, node, 0)).saturating_sub(1));
    get_or(kinds, node, 0) == codes::nodes::TYPE && get_or(kinds, first, 0) == codes::nodes::ITEM
}

// The item of a type by the symbol of its name.
fn item_finding(
    keys: &[u64],
    nodes: &[u32],
    heads: &[u32],
    next: &[u32],
    node: usize,
    symbol: u32,
    place: u32,
) -> Finding
    ensures { ItemFinding keys.now nodes.now heads.now next.now node symbol place result }
{
    let meaning = item_meant(keys, heads, next, node, symbol);
    let fault = faults::judged(meaning, true, place);
    match meaning {
        Meaning::Nothing => found(fault, 0, 0),
        Meaning::One(e) => found(fault, one_more(index(get_or(nodes, e, 0))), 0),
        Meaning::Several => found(fault, 0, 0),
    }
}

// The item of the type that a number stands for, where that is an enumeration.
fn item_of_type(
    kinds: &[u8],
    sizes: &[u32],
    keys: &[u64],
    nodes: &[u32],
    heads: &[u32],
    next: &[u32],
    vertex: usize,
    beginning: u32,
    symbol: u32,
    place: u32,
) -> Finding
    ensures { TypeFinding kinds.now sizes.now keys.now nodes.now heads.now next.now
        vertex beginning symbol place result }
{
    let node = index(get_or(nodes, vertex, 0));
    let item = item_finding(keys, nodes, heads, next, node, symbol, place);
    let of_type = faults::wrong_sort(is_enumeration(kinds, sizes, node), beginning);
    found(faults::or_later(of_type, item.fault), item.binding, 0)
}

// `type.item`, by the symbols of the two names, with the place at which each begins.
pub fn qualified_finding(
    kinds: &[u8],
    sizes: &[u32],
    keys: &[u64],
    nodes: &[u32],
    heads: &[u32],
    next: &[u32],
    schema: usize,
    qualifier: u32,
    beginning: u32,
    symbol: u32,
    place: u32,
) -> Finding
    ensures { QualifiedFinding kinds.now sizes.now keys.now nodes.now heads.now next.now
        schema qualifier beginning symbol place result }
{
    let meaning = declaration_meant(keys, heads, next, schema, qualifier);
    match meaning {
        Meaning::Nothing => found(faults::fault_at(Reply::NotFound, beginning), 0, 0),
        Meaning::One(v) => item_of_type(
            kinds, sizes, keys, nodes, heads, next, v, beginning, symbol, place,
        ),
        Meaning::Several => found(faults::fault_at(Reply::Ambiguous, beginning), 0, 0),
    }
}
