// Directed graphs whose arcs stand grouped by source: the test of the two columns, and all that a vertex reaches.
#![tactic(auto)]

ghost use Rattle.std.specs.Prelude.{◌≡◌, true, false, ℕ, ◌+◌, ◌-◌, ◌≤◌, ◌<◌, length, get_or};
ghost use Rattle.graph.specs.Graph.{Graph, Tells};
ghost use Rattle.graph.specs.Mark.{stamped, unstamped, Searches, Expands};

use columns::{get_or, index, put};

// Why nothing is marked: the two columns are no graph with that vertex, or a queue or a column of marks is too short and needs so many entries.
#[derive(Clone, Copy, Debug, PartialEq, Eq)]
pub enum MarkError {
    Malformed,
    Short(usize),
}

// Do the offsets never fall? (There are n + 1 of them.)
fn rising(first: &[u32], n: usize) -> bool
    requires { length first.now ≡ n + 1 }
    ensures { Tells ((v : ℕ) → v < n → get_or first.now v 0 ≤ get_or first.now (v + 1) 0) result }
{
    for v in 0..n {
        if first[v + 1] < first[v] {
            return false;
        }
    }
    true
}

// Are the targets from one place up to another below n?
fn inside(to: &[u32], from: usize, end: usize, n: usize) -> bool
    requires { end ≤ length to.now }
    ensures { Tells ((e : ℕ) → from ≤ e → e < end → get_or to.now e 0 < n) result }
{
    for e in from..end {
        if n <= index(to[e]) {
            return false;
        }
    }
    true
}

// The most vertices: as many as a file can have nodes.
const MOST: usize = 65536;

// Are the two columns a graph?
pub fn valid(first: &[u32], to: &[u32]) -> bool
    ensures { Tells (Graph first.now to.now) result }
{
    let Some(n) = first.len().checked_sub(1) else {
        return false;
    };
    if MOST < n || !rising(first, n) {
        return false;
    }
    let end = index(first[n]);
    end <= to.len() && inside(to, index(first[0]), end, n)
}

// Is it an index of a mark that is not the stamp?
fn is_unstamped(mark: &[u32], v: usize, stamp: u32) -> bool
    ensures { result ≡ unstamped stamp mark.now v }
{
    v < mark.len() && mark[v] != stamp
}

// Marks the targets of u's arcs with the stamp, and puts those that are new into the queue.
fn expand(
    first: &[u32],
    to: &[u32],
    u: usize,
    stamp: u32,
    mark: &mut [u32],
    queue: &mut [u32],
    tail: usize,
) -> usize
    requires { tail ≤ stamped stamp mark.old (length mark.old) }
    ensures { Expands first.now to.now u stamp mark.old queue.old tail mark.new queue.new result }
{
    if first.len() <= u {
        return tail;
    }
    let start = index(get_or(first, u, 0));
    let end = index(get_or(first, u + 1, 0));
    let mut t = tail;
    for e in start..end {
        let target = get_or(to, e, 0);
        let w = index(target);
        if is_unstamped(mark, w, stamp) {
            put(mark, w, stamp);
            put(queue, t, target);
            t += 1;
        }
    }
    t
}

// Marks all that a vertex reaches over one or more arcs with a stamp that no mark has yet, and lists them in the queue: so many.
// The work goes by what is reached, and nothing is cleared.
pub fn search(
    first: &[u32],
    to: &[u32],
    from: usize,
    stamp: u32,
    mark: &mut [u32],
    queue: &mut [u32],
) -> usize
    ensures { Searches first.now to.now from stamp mark.old queue.old mark.new queue.new result }
{
    let mut tail = expand(first, to, from, stamp, mark, queue, 0);
    let mut head = 0;
    while head < tail {
        let u = index(get_or(queue, head, 0));
        tail = expand(first, to, u, stamp, mark, queue, tail);
        head += 1;
    }
    tail
}
