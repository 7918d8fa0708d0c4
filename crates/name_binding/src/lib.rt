// The dictionary of a file, and all stages of names over it, from the first to the last.
#![tactic(auto)]

ghost use Rattle.name_binding.specs.Binding.{BindsNames};
ghost use Rattle.name_binding.specs.Prepared.{PreparesFile};

use faults::Fault;
use name_stages::{bind_declarations, bind_expressions};
use row_inheritance::inherit_all;
use scopes::dictionary::Unfit;

// Interns the identifiers of a file, chained in a column of links, and enters what it declares into its dictionary.
pub fn prepare(
    src: &[u8],
    starts: &[u32],
    lengths: &[u32],
    terminals: &[u8],
    kinds: &[u8],
    tokens: &[u32],
    roles: &[u8],
    symbols: &mut [u32],
    keys: &mut [u64],
    nodes: &mut [u32],
    heads: &mut [u32],
    links: &mut [u32],
    next: &mut [u32],
) -> Result<(), Unfit>
    ensures { PreparesFile src.now starts.now lengths.now terminals.now kinds.now tokens.now
        roles.now symbols.old keys.old nodes.old heads.old links.old next.old result
        symbols.new keys.new nodes.new heads.new next.new }
{
    let interned = symbols::intern(src, starts, lengths, terminals, symbols, heads, links);
    match interned {
        Ok(()) => preparation::prepare(
            kinds,
            tokens,
            roles,
            &symbols[..starts.len()],
            keys,
            nodes,
            heads,
            next,
        ),
        Err(_) => Err(Unfit),
    }
}

// All stages, over a dictionary that is prepared: the first fault, and where there is none the bindings of all nodes, and an order of
// the declarations by their types and one by their constants. What is inherited comes before both orders, and uses their columns.
pub fn bind_names(
    kinds: &[u8],
    tokens: &[u32],
    sizes: &[u32],
    roles: &[u8],
    symbols: &[u32],
    starts: &[u32],
    keys: &[u64],
    nodes: &[u32],
    heads: &[u32],
    next: &[u32],
    bound: &mut [u32],
    first: &mut [u32],
    to: &mut [u32],
    types: &mut [u32],
    constants: &mut [u32],
    scratch: &mut [u32],
) -> Option<Fault>
    ensures { BindsNames kinds.now tokens.now sizes.now roles.now symbols.now starts.now
        keys.now nodes.now heads.now next.now
        bound.old first.old to.old types.old constants.old scratch.old
        result bound.new types.new constants.new }
{
    let declared = bind_declarations(
        kinds, tokens, roles, symbols, starts, keys, nodes, heads, next, bound, first, to,
    );
    inherit_all(
        kinds, tokens, roles, symbols, keys, nodes, first, to, scratch, types, constants, bound,
    );
    let cyclic = dependencies::arrange(tokens, starts, nodes, first, to, types, scratch);
    let used = bind_expressions(
        kinds, tokens, sizes, roles, symbols, starts, keys, nodes, heads, next, bound, first, to,
        constants, scratch,
    );
    faults::or_later(declared, faults::or_later(cyclic, used))
}
