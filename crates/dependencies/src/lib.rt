// The declarations of a file as a graph: an arc from a declaration to each that a name in it means. Its arcs are stored while
// the nodes are passed from the last to the first, from the end of a lent column, so that they come grouped by source.
#![tactic(auto)]

ghost use Rattle.std.specs.Prelude.{◌≡◌};
ghost use Rattle.dependencies.specs.Graph.{Added};
ghost use Rattle.dependencies.specs.Arrangement.{named, Arranges};

use columns::{get_or, index, put};
use faults::{Fault, Reply};

// One arc more, before those that are stored: to one less than the target; none for 0.
pub fn add_arc(to: &mut [u32], arcs: usize, target: u32) -> usize
    ensures { Added to.old arcs target result to.new }
{
    if target == 0 {
        return arcs;
    }
    let at = arcs.saturating_sub(1);
    put(to, at, target - 1);
    at
}

// The vertices in a column become the nodes of their declarations.
fn name_nodes(nodes: &[u32], order: &mut [u32], vertices: usize)
    ensures { order.new ≡ named nodes.now vertices order.old }
{
    for k in 0..vertices {
        let v = index(get_or(order, k, 0));
        put(order, k, get_or(nodes, v, 0));
    }
}

// The declarations in an order in which each stands after all that it has arcs to; or reply 13, with the place of the first
// declaration on a cycle.
pub fn arrange(
    tokens: &[u32],
    starts: &[u32],
    nodes: &[u32],
    first: &[u32],
    to: &[u32],
    order: &mut [u32],
    scratch: &mut [u32],
) -> Option<Fault>
    ensures { Arranges tokens.now starts.now nodes.now first.now to.now order.old
        scratch.old result order.new scratch.new }
{
    match orders::order(first, to, order, scratch) {
        Ok(None) => {
            name_nodes(nodes, order, first.len().saturating_sub(1));
            None
        }
        Ok(Some(v)) => {
            let node = index(get_or(nodes, v, 0));
            let token = index(get_or(tokens, node, 0));
            faults::fault_at(Reply::Cycle, get_or(starts, token, 0))
        }
        Err(_) => None,
    }
}
