// An order of dependencies without a search. Vertices get their places from the last one down, each as soon as all that have arcs to it have
// theirs. Nothing is promised of that: the places are tested afterwards, which takes less than to prove them, and where they are no order the
// search for components tells, which finds the cycle.
#![tactic(auto)]

ghost use Rattle.std.specs.Prelude.{◌≡◌, true, List, ◌+◌, ◌≤◌, ◌<◌, length, get_or};
ghost use Rattle.cycles.specs.Answer.{lent, OrderAnswers};
ghost use Rattle.orders.specs.Places.{Falls, Places, Copies, SortsIn, Sorts};

use columns::{get_or, index, number, put};
use cycles::GraphError;

// Scratch that is lent has six numbers for each vertex, as the search needs them; here two are used: by vertex, its place, or as long as it
// has none the number of vertices and the arcs to it that are left; and behind them, by place, its vertex.
const WIDTH: usize = 6;

// The number at an index; past the end of the column 0.
fn at(column: &[u32], i: usize) -> usize
    ensures { (result ≡ get_or column.now i 0) × (result < 4294967296) }
{
    index(get_or(column, i, 0))
}

// No vertex has a place.
fn start(s: &mut [u32], n: usize) {
    for v in 0..n {
        put(s, v, number(n));
    }
}

// One more for each arc to a vertex.
fn count(to: &[u32], from: usize, end: usize, s: &mut [u32]) {
    for e in from..end {
        let w = at(to, e);
        put(s, w, number(at(s, w) + 1));
    }
}

// Vertex v gets the place before those that are taken.
fn place(s: &mut [u32], n: usize, taken: usize, v: usize) -> usize
    requires { (n ≤ 65536) × (taken ≤ 65536) }
    ensures { result ≤ taken }
{
    let p = taken.saturating_sub(1);
    put(s, n + p, number(v));
    put(s, v, number(p));
    p
}

// The same where no arc to it is left, by its entry.
fn place_free(s: &mut [u32], n: usize, taken: usize, v: usize, left: usize) -> usize
    requires { (n ≤ 65536) × (taken ≤ 65536) }
    ensures { result ≤ taken }
{
    if left != n {
        return taken;
    }
    place(s, n, taken, v)
}

// One arc less to each target of some arcs; those that have none left get their places.
fn release(to: &[u32], from: usize, end: usize, n: usize, before: usize, s: &mut [u32]) -> usize
    requires { (n ≤ 65536) × (before ≤ 65536) }
    ensures { result ≤ before }
{
    let mut taken = before;
    for e in from..end {
        let w = at(to, e);
        let left = at(s, w).saturating_sub(1);
        put(s, w, number(left));
        taken = place_free(s, n, taken, w, left);
    }
    taken
}

// The same for the arcs of each vertex that has a place before one, from the last of them on, and of those that get theirs meanwhile.
fn follow(first: &[u32], to: &[u32], n: usize, end: usize, before: usize, s: &mut [u32]) -> usize
    requires { (n ≤ 65536) × (end ≤ 65536) × (before ≤ 65536) }
    ensures { result ≤ before }
{
    let mut taken = before;
    let mut p = end;
    while taken < p {
        p -= 1;
        let v = at(s, n + p);
        taken = release(to, at(first, v), at(first, v + 1), n, taken, s);
    }
    taken
}

// Places for all vertices, if there is no cycle. A vertex to which no arc leads is followed at once, so that vertices without arcs between
// them stay apart as their numbers do.
fn assign(first: &[u32], to: &[u32], n: usize, s: &mut [u32])
    requires { n ≤ 65536 }
{
    start(s, n);
    count(to, at(first, 0), at(first, n), s);
    let mut taken = n;
    for v in (0..n).rev() {
        let left = at(s, v);
        let then = place_free(s, n, taken, v, left);
        taken = follow(first, to, n, taken, then, s);
    }
}

// The most vertices.
const MOST: usize = 65536;

// Places for all vertices of a graph, in a column of two numbers for each: where there is no cycle its second half has the vertices in an order in which
// each stands after all that it has arcs to. Nothing is promised of them: who uses them tests what it makes of them.
pub fn places(first: &[u32], to: &[u32], s: &mut [u32]) {
    let n = s.len() / 2;
    if n <= MOST {
        assign(first, to, n, s);
    }
}

// Do the arcs from one place up to another lead to vertices before a place?
fn lead_before(to: &[u32], from: usize, end: usize, s: &[u32], p: usize) -> bool
    ensures { result ≡ true → Falls to.now s.now p from end }
{
    for e in from..end {
        if p <= at(s, at(to, e)) {
            return false;
        }
    }
    true
}

// Has each vertex a place of its own, and does every arc lead to an earlier one?
fn is_order(first: &[u32], to: &[u32], n: usize, s: &[u32]) -> bool
    requires { n ≤ 65536 }
    ensures { result ≡ true → Places first.now to.now n s.now n }
{
    for v in 0..n {
        let p = at(s, v);
        let w = at(s, n + v);
        if n <= p
            || n <= w
            || at(s, n + p) != v
            || at(s, w) != v
            || !lead_before(to, at(first, v), at(first, v + 1), s, p)
        {
            return false;
        }
    }
    true
}

// The vertices by their places.
fn copy(s: &[u32], n: usize, order: &mut [u32])
    requires { n ≤ 65536 }
    ensures { Copies s.now n order.new (length order.old) }
{
    for k in 0..n {
        put(order, k, number(at(s, n + k)));
    }
}

// An order in a column as long as there are vertices, or false, with the column as it was; scratch is left with zeros.
fn sort_in(first: &[u32], to: &[u32], order: &mut [u32], s: &mut [u32]) -> bool
    requires { length order.old ≤ 65536 }
    ensures { SortsIn first.now to.now order.old s.old result order.new s.new }
{
    let n = order.len();
    assign(first, to, n, s);
    let sorted = is_order(first, to, n, s);
    if sorted {
        copy(s, n, order);
    }
    columns::clear(s, 0, 0);
    sorted
}

// The same at the front of a column and of scratch, where the two are long enough and the arcs are a graph.
fn sort(first: &[u32], to: &[u32], column: &mut [u32], scratch: &mut [u32]) -> bool
    ensures { Sorts first.now to.now (lent column.old scratch.old) (lent column.new scratch.new) result }
{
    if !graph::valid(first, to) {
        return false;
    }
    let n = first.len() - 1;
    let needed = WIDTH * n;
    if column.len() < n || scratch.len() < needed {
        return false;
    }
    sort_in(first, to, &mut column[..n], &mut scratch[..needed])
}

// The vertices in an order in which each stands after all that it depends on, or the smallest vertex on a cycle.
pub fn order(
    first: &[u32],
    to: &[u32],
    column: &mut [u32],
    scratch: &mut [u32],
) -> Result<Option<usize>, GraphError>
    ensures { OrderAnswers first.now to.now (lent column.old scratch.old) (lent column.new scratch.new) result }
{
    if sort(first, to, column, scratch) {
        return Ok(None);
    }
    cycles::topological_order(first, to, column, scratch)
}
