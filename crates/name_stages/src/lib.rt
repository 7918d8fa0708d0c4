// The stages of names, one after the other: what is declared twice, and the names of types with their graph; and the names in expressions
// with the graph of the constants and its order. A stage computes on where an earlier one has found a fault; the faults are put
// together at the end.
#![tactic(auto)]

ghost use Rattle.name_stages.specs.Stages.{BindsDeclarations, BindsExpressions};

use faults::Fault;

// Stages 9, 10 and 11 of types: the bindings of the names of types, and the graph of the declarations.
pub fn bind_declarations(
    kinds: &[u8],
    tokens: &[u32],
    roles: &[u8],
    symbols: &[u32],
    starts: &[u32],
    keys: &[u64],
    nodes: &[u32],
    heads: &[u32],
    next: &[u32],
    bound: &mut [u32],
    first: &mut [u32],
    to: &mut [u32],
) -> Option<Fault>
    ensures { BindsDeclarations kinds.now tokens.now roles.now symbols.now starts.now
        keys.now nodes.now heads.now next.now
        bound.old first.old to.old result bound.new first.new to.new }
{
    let repeated = duplicates::least_duplicate(tokens, starts, keys, nodes, next);
    let unbound = type_names::bind_type_names(
        kinds, tokens, roles, symbols, starts, keys, nodes, heads, next, bound, first, to,
    );
    faults::or_later(repeated, unbound)
}

// Stages 10 to 12 of expressions, and 13 of constants: the bindings of all names, the graph of the constants and an order of the
// declarations. The column that the search for an order needs serves as the table of items before.
pub fn bind_expressions(
    kinds: &[u8],
    tokens: &[u32],
    sizes: &[u32],
    roles: &[u8],
    symbols: &[u32],
    starts: &[u32],
    keys: &[u64],
    nodes: &[u32],
    heads: &[u32],
    next: &[u32],
    bound: &mut [u32],
    first: &mut [u32],
    to: &mut [u32],
    order: &mut [u32],
    scratch: &mut [u32],
) -> Option<Fault>
    ensures { BindsExpressions kinds.now tokens.now sizes.now roles.now symbols.now starts.now
        keys.now nodes.now heads.now next.now
        bound.old first.old to.old order.old scratch.old result
        bound.new first.new to.new order.new }
{
    let slots = symbols.len().min(scratch.len());
    let unbound = uses::bind_uses(
        kinds,
        tokens,
        sizes,
        roles,
        symbols,
        starts,
        keys,
        nodes,
        heads,
        next,
        bound,
        first,
        to,
        &mut scratch[..slots],
    );
    let cyclic = dependencies::arrange(tokens, starts, nodes, first, to, order, scratch);
    faults::or_later(unbound, cyclic)
}
