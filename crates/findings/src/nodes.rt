// What is found of a node in an expression, or of an own attribute or label.
ghost use Rattle.meanings.specs.Node.{MemberFault, NodeFindings};

use crate::{found, qualified_finding, use_finding};
use columns::{get_or, index};
use faults::{Fault, Reply};
use meanings::Use;
use type_names::Finding;

// How many tokens before an item's name the name of its type stands.
const QUALIFIER: usize = 2;

// An own attribute or label: at fault where it is inherited too.
fn member_fault(inherited: Use, place: u32) -> Option<Fault>
    ensures { MemberFault inherited place result }
{
    match inherited {
        Use::Nothing => None,
        Use::Several | Use::Node(_) | Use::Declaration(_) => {
            faults::fault_at(Reply::Ambiguous, place)
        }
    }
}

// A node with a kind, of an owner in a schema, whose symbol inherits some attributes there and means some items of the schema.
pub fn node_finding(
    kinds: &[u8],
    tokens: &[u32],
    sizes: &[u32],
    symbols: &[u32],
    starts: &[u32],
    keys: &[u64],
    nodes: &[u32],
    heads: &[u32],
    next: &[u32],
    kind: u8,
    owner: usize,
    schema: usize,
    inherited: Use,
    item: Use,
    i: usize,
) -> Finding
    ensures { NodeFindings kinds.now tokens.now sizes.now symbols.now starts.now
        keys.now nodes.now heads.now next.now kind owner schema inherited item i result }
{
    let token = index(get_or(tokens, i, 0));
    let symbol = get_or(symbols, token, 0);
    let place = get_or(starts, token, 0);
    if kind == codes::nodes::NAME {
        let meaning = meanings::use_meant(
            keys, nodes, heads, next, inherited, item, owner, schema, symbol,
        );
        return use_finding(kinds, nodes, meaning, place);
    }
    if kind == codes::nodes::QUALIFIED_ITEM {
        let before = token.saturating_sub(QUALIFIER);
        let qualifier = get_or(symbols, before, 0);
        let beginning = get_or(starts, before, 0);
        return qualified_finding(
            kinds, sizes, keys, nodes, heads, next, schema, qualifier, beginning, symbol, place,
        );
    }
    if kind == codes::nodes::SELF_REFERENCE {
        let outside = get_or(kinds, owner, 0) != codes::nodes::CONSTANT;
        return found(faults::wrong_sort(outside, place), 0, 0);
    }
    found(member_fault(inherited, place), 0, 0)
}
