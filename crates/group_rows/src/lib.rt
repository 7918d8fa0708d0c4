// What is read of the rows that a search for components leaves: whether a vertex has an arc into its own group, and each vertex put at its place.
#![tactic(auto)]

ghost use Rattle.std.specs.Prelude.{◌≡◌, ◌+◌, ◌*◌, ◌<◌, length};
ghost use Rattle.graph.specs.Graph.{Tells};
ghost use Rattle.group_rows.specs.Rows.{cell, Grouped, Inner, Arrangeable, Arranged};

use columns::{index, number, put};

// A row has six numbers; the first two are the group of a vertex and its place. There are at most so many vertices.
pub const WIDTH: usize = 6;

pub const GROUP: usize = 0;

pub const PLACE: usize = 1;

const MOST: usize = 65536;

// One of the numbers of a row.
fn get(s: &[u32], column: usize, i: usize) -> usize
    requires { 6 * i + column < length s.now }
    ensures { result ≡ cell s.now column i }
{
    index(s[WIDTH * i + column])
}

// Is vertex w in a group? Without a row it is in none.
fn in_group(s: &[u32], w: usize, group: usize) -> bool
    ensures { w < 65536 → 6 * w < length s.now → Tells (cell s.now 0 w ≡ group) result }
{
    w < MOST && WIDTH * w < s.len() && get(s, GROUP, w) == group
}

// Has vertex v an arc into its own group? Of what is no graph, or has too few rows, nothing is said.
pub fn inner(first: &[u32], to: &[u32], s: &[u32], v: usize) -> bool
    ensures { Grouped first.now to.now s.now v → Tells (Inner first.now to.now s.now v) result }
{
    if MOST <= v || first.len() <= v + 1 || s.len() <= WIDTH * v {
        return false;
    }
    let own = get(s, GROUP, v);
    let start = index(first[v]);
    let end = index(first[v + 1]).min(to.len());
    for e in start..end {
        if in_group(s, index(to[e]), own) {
            return true;
        }
    }
    false
}

// Puts each vertex at its place. Where two have the same, or one lies outside, nothing is said.
pub fn arrange(order: &mut [u32], s: &[u32], n: usize)
    ensures { Arrangeable order.old s.now n → Arranged s.now order.new n }
{
    if MOST < n || s.len() < WIDTH * n {
        return;
    }
    for v in 0..n {
        let k = get(s, PLACE, v);
        put(order, k, number(v));
    }
}
