// Which vertices of a graph reach which, as rows of bits. Some vertices have a rank above 0 and with it a row; its bit j is set where the vertex
// reaches the one of rank j. Row 0 is no vertex's: it has the bits of all that are reached.
// Rows are joined arc by arc in an order that is lent, of which nothing is asked: afterwards it is tested that no arc would add a bit.
#![tactic(auto)]

ghost use Rattle.std.specs.Prelude.{◌≡◌, ◌-◌, ◌≤◌, ◌<◌, length};
ghost use Rattle.ancestors.specs.Rows.{word_count, width_limit, offset_limit, merged, contained, arc_joined, arc_closed, arcs_joined, arcs_closed, vertices_joined, vertices_closed};
ghost use Rattle.ancestors.specs.Related.{Relates};

use bit_rows::{WORD, has, set};
use columns::{get_or, index, put};

// A graph, the ranks of its vertices, and the words of a row.
#[derive(Clone, Copy)]
struct Graph<'a> {
    first: &'a [u32],
    to: &'a [u32],
    ranks: &'a [u32],
    width: usize,
}

// Adds the bits of so many words to as many others.
fn merge(rows: &mut [u32], into: usize, from: usize, width: usize)
    requires { (into ≤ offset_limit) × (from ≤ offset_limit) × (width ≤ width_limit) }
    ensures { rows.new ≡ merged rows.old into from width }
{
    for k in 0..width {
        let word = get_or(rows, into + k, 0) | get_or(rows, from + k, 0);
        put(rows, into + k, word);
    }
}

// Have so many words all bits of as many others?
fn contains(rows: &[u32], into: usize, from: usize, width: usize) -> bool
    requires { (into ≤ offset_limit) × (from ≤ offset_limit) × (width ≤ width_limit) }
    ensures { result ≡ contained rows.now into from width }
{
    // Form kept: a loop and not `.all`: (c) the search did not read what the two look-ups in a closure over a range answer.
    for k in (0..width).rev() {
        let word = get_or(rows, into + k, 0);
        if word | get_or(rows, from + k, 0) != word {
            return false;
        }
    }
    true
}

// An arc from one rank to another: the one reaches the other, and all that this reaches.
fn join_arc(width: usize, rank: usize, other: usize, rows: &mut [u32])
    requires { (width ≤ width_limit) × (rank < word_count) × (other < word_count) }
    ensures { rows.new ≡ arc_joined width rank other rows.old }
{
    set(rows, other);
    set(rows, rank * width * WORD + other);
    merge(rows, rank * width, other * width, width);
}

// Would an arc from one rank to another add nothing?
fn arc_closed(width: usize, rank: usize, other: usize, rows: &[u32]) -> bool
    requires { (width ≤ width_limit) × (rank < word_count) × (other < word_count) }
    ensures { result ≡ arc_closed width rank other rows.now }
{
    has(rows, other)
        && has(rows, rank * width * WORD + other)
        && contains(rows, rank * width, other * width, width)
}

// The arcs from one place up to another, all of one rank.
fn join_arcs(graph: Graph, from: usize, end: usize, rank: usize, rows: &mut [u32])
    requires { (graph.width ≤ width_limit) × (rank < word_count) }
    ensures { rows.new ≡ arcs_joined graph.entry.to.now graph.entry.ranks.now graph.entry.width rank from (end - from) rows.old }
{
    for e in from..end {
        let other = index(get_or(graph.ranks, index(get_or(graph.to, e, 0)), 0));
        join_arc(graph.width, rank, other, rows);
    }
}

fn arcs_closed(graph: Graph, from: usize, end: usize, rank: usize, rows: &[u32]) -> bool
    requires { (graph.width ≤ width_limit) × (rank < word_count) }
    ensures { result ≡ arcs_closed graph.entry.to.now graph.entry.ranks.now graph.entry.width rank from (end - from) rows.now }
{
    for e in (from..end).rev() {
        let other = index(get_or(graph.ranks, index(get_or(graph.to, e, 0)), 0));
        if !arc_closed(graph.width, rank, other, rows) {
            return false;
        }
    }
    true
}

// The arcs of the vertices in a column, in their order; those without a rank are passed over.
fn join_vertices(graph: Graph, order: &[u32], rows: &mut [u32])
    requires { graph.width ≤ width_limit }
    ensures { rows.new ≡ vertices_joined graph.entry.first.now graph.entry.to.now graph.entry.ranks.now order.now graph.entry.width (length order.now)
        rows.old }
{
    for vertex in order {
        let v = index(*vertex);
        let rank = index(get_or(graph.ranks, v, 0));
        if rank != 0 {
            let from = index(get_or(graph.first, v, 0));
            let end = index(get_or(graph.first, v + 1, 0));
            join_arcs(graph, from, end, rank, rows);
        }
    }
}

// Would no arc of a vertex with a rank add anything?
fn vertices_closed(graph: Graph, rows: &[u32]) -> bool
    requires { graph.width ≤ width_limit }
    ensures { result ≡ vertices_closed graph.entry.first.now graph.entry.to.now graph.entry.ranks.now graph.entry.width (length graph.entry.ranks.now)
        rows.now }
{
    for v in (0..graph.ranks.len()).rev() {
        let rank = index(get_or(graph.ranks, v, 0));
        if rank != 0 {
            let from = index(get_or(graph.first, v, 0));
            let end = index(get_or(graph.first, v + 1, 0));
            if !arcs_closed(graph, from, end, rank, rows) {
                return false;
            }
        }
    }
    true
}

// The widest rows: no index overflows.
pub const WIDEST: usize = 65536;

// The rows of all vertices with a rank, each of so many words, by the vertices in a column; or false, where these are no order in which each
// stands after all that it has arcs to, or where the rows are too short.
pub fn relate(
    first: &[u32],
    to: &[u32],
    ranks: &[u32],
    order: &[u32],
    width: usize,
    rows: &mut [u32],
) -> bool
    ensures { Relates first.now to.now ranks.now order.now width rows.old result rows.new }
{
    if WIDEST < width {
        return false;
    }
    columns::clear(rows, 0, 0);
    let graph = Graph {
        first,
        to,
        ranks,
        width,
    };
    join_vertices(graph, order, rows);
    vertices_closed(graph, rows)
}
