// What constants and types are declared with, seen through renamings: a number for each, in a column with an entry for each node.
#![tactic(auto)]

ghost use Rattle.std.specs.Prelude.{◌≡◌, cond, [], ◌+◌, ◌-◌, get_or, set, eqb};
ghost use Rattle.express.specs.Syntax.NodeKind.{enumeration_item};
ghost use Rattle.express.specs.Semantics.Declared.{simple};
ghost use Rattle.express.specs.Semantics.DeclaredColumn.{declared_number};
ghost use Rattle.declared_types.specs.Storing.{table_of, enumeration_number, base_number, type_number};
ghost use Rattle.declared_types.specs.Storing.{type_items_stored, type_stored, constant_stored, types_stored, constants_stored};
ghost use Rattle.declared_types.specs.Promise.{Declares};

use codes::types;
use columns::{get_or, index, put};
use kind_rules::simple;

// The number of the enumeration whose type is a node.
#[tactic(auto, unfolding(crate::specs::Storing::enumeration_number))]
fn enumeration(node: usize) -> u32
    ensures { result ≡ enumeration_number node }
{
    if node <= types::LAST_NODE {
        columns::number(node) + types::FIRST_ENUMERATION
    } else {
        types::OTHER
    }
}

// The number of what a node is or names; those of the types that names are bound to stand in the column.
#[tactic(auto, unfolding(crate::specs::Storing::base_number))]
fn base(
    terminals: &[u8],
    kinds: &[u8],
    tokens: &[u32],
    bindings: &[u32],
    column: &[u32],
    node: usize,
) -> u32
    ensures { result ≡ base_number
        (table_of terminals.now kinds.now tokens.now [])
        bindings.now column.now node }
{
    if get_or(kinds, node, 0) == codes::nodes::SIMPLE_TYPE {
        return simple(get_or(terminals, index(get_or(tokens, node, 0)), 0));
    }
    let binding = index(get_or(bindings, node, 0));
    if binding != 0 && get_or(kinds, binding - 1, 0) == codes::nodes::TYPE {
        return get_or(column, binding - 1, 0);
    }
    types::OTHER
}

// The first node of a subtree (G30).
fn first_node(sizes: &[u32], node: u32) -> usize
    ensures { result ≡ node + 1 - get_or sizes.now node 0 }
{
    let n = index(node);
    (n + 1).saturating_sub(index(get_or(sizes, n, 0)))
}

// Does a type rename what its first node is or names? That stands two tokens after the type's name, the names of a select
// list further on.
fn renames(tokens: &[u32], node: u32, first: usize) -> bool
    ensures { result ≡ eqb (get_or tokens.now first 0) (get_or tokens.now node 0 + 2) }
{
    index(get_or(tokens, first, 0)) == index(get_or(tokens, index(node), 0)) + 2
}

// The number of a type, by its first node: an item, what it renames, or the first name of a select list.
#[tactic(auto, unfolding(crate::specs::Storing::type_number, crate::specs::Storing::base_number))]
fn underlying(
    terminals: &[u8],
    kinds: &[u8],
    tokens: &[u32],
    sizes: &[u32],
    bindings: &[u32],
    column: &[u32],
    node: u32,
) -> u32
    ensures { result ≡ type_number
        (table_of terminals.now kinds.now tokens.now sizes.now)
        bindings.now column.now node }
{
    let first = first_node(sizes, node);
    if get_or(kinds, first, 0) == codes::nodes::ITEM {
        return enumeration(index(node));
    }
    if renames(tokens, node, first) {
        return base(terminals, kinds, tokens, bindings, column, first);
    }
    types::OTHER
}

// The type of a constant stands before its expression, the last of its nodes but itself.
fn type_node(sizes: &[u32], constant: usize) -> usize
    ensures { result ≡ (constant - 1) - get_or sizes.now (constant - 1) 0 }
{
    let last = constant.saturating_sub(1);
    last.saturating_sub(index(get_or(sizes, last, 0)))
}

fn store_item(kind: u8, column: &mut [u32], i: usize, owner: usize)
    ensures { column.new ≡ cond (eqb kind enumeration_item)
        (set column.old i (enumeration_number owner)) column.old }
{
    if kind == codes::nodes::ITEM {
        put(column, i, enumeration(owner));
    }
}

// The items of a type whose first node is one: all of its nodes that are some.
fn store_items_of(kinds: &[u8], sizes: &[u32], column: &mut [u32], node: u32)
    ensures { column.new ≡ type_items_stored (table_of [] kinds.now [] sizes.now) column.old node }
{
    let d = index(node);
    if get_or(kinds, d, 0) != codes::nodes::TYPE {
        return;
    }
    let first = first_node(sizes, node);
    if get_or(kinds, first, 0) != codes::nodes::ITEM {
        return;
    }
    for i in first..d {
        store_item(get_or(kinds, i, 0), column, i, d);
    }
}

// A type, and its items.
fn store_type(
    terminals: &[u8],
    kinds: &[u8],
    tokens: &[u32],
    sizes: &[u32],
    bindings: &[u32],
    column: &mut [u32],
    node: u32,
)
    ensures { column.new ≡ type_stored
        (table_of terminals.now kinds.now tokens.now sizes.now)
        bindings.now column.old node }
{
    if get_or(kinds, index(node), 0) != codes::nodes::TYPE {
        return;
    }
    store_items_of(kinds, sizes, column, node);
    let number = underlying(terminals, kinds, tokens, sizes, bindings, column, node);
    put(column, index(node), number);
}

#[tactic(auto, unfolding(crate::specs::Storing::constant_stored, crate::specs::Storing::base_number))]
fn store_constant(
    terminals: &[u8],
    kinds: &[u8],
    tokens: &[u32],
    sizes: &[u32],
    bindings: &[u32],
    column: &mut [u32],
    i: usize,
)
    ensures { column.new ≡ constant_stored
        (table_of terminals.now kinds.now tokens.now sizes.now)
        bindings.now column.old i }
{
    if get_or(kinds, i, 0) != codes::nodes::CONSTANT {
        return;
    }
    let number = base(
        terminals,
        kinds,
        tokens,
        bindings,
        column,
        type_node(sizes, i),
    );
    put(column, i, number);
}

// The types, each after those that it renames, and their items.
fn store_types(
    terminals: &[u8],
    kinds: &[u8],
    tokens: &[u32],
    sizes: &[u32],
    bindings: &[u32],
    order: &[u32],
    column: &mut [u32],
)
    ensures { column.new ≡ types_stored
        (table_of terminals.now kinds.now tokens.now sizes.now)
        bindings.now order.now column.old }
{
    for node in order {
        store_type(terminals, kinds, tokens, sizes, bindings, column, *node);
    }
}

fn store_constants(
    terminals: &[u8],
    kinds: &[u8],
    tokens: &[u32],
    sizes: &[u32],
    bindings: &[u32],
    order: &[u32],
    column: &mut [u32],
)
    ensures { column.new ≡ constants_stored
        (table_of terminals.now kinds.now tokens.now sizes.now)
        bindings.now order.now column.old }
{
    for constant in order {
        store_constant(
            terminals,
            kinds,
            tokens,
            sizes,
            bindings,
            column,
            index(*constant),
        );
    }
}

// Stores the numbers of all enumeration items, types and constants; `order` has the declarations, each type after those that
// it renames. No other entry changes.
pub fn declared_types(
    terminals: &[u8],
    kinds: &[u8],
    tokens: &[u32],
    sizes: &[u32],
    bindings: &[u32],
    order: &[u32],
    column: &mut [u32],
)
    ensures { Declares terminals.now kinds.now tokens.now sizes.now
        bindings.now order.now column.old column.new }
{
    store_types(terminals, kinds, tokens, sizes, bindings, order, column);
    store_constants(terminals, kinds, tokens, sizes, bindings, order, column);
}
