// Strongly connected components, and with them the smallest vertex on a cycle and an order of dependencies.
#![tactic(auto)]

ghost use Rattle.std.specs.Prelude.{◌≡◌, [], ℕ, ◌+◌, ◌*◌, ◌-◌, ◌<◌, length, get_or, set};
ghost use Rattle.graph.specs.Graph.{vertices};
ghost use Rattle.cycles.specs.State.{cell, state};
ghost use Rattle.cycles.specs.Component.{Finished};
ghost use Rattle.cycles.specs.Search.{Ready, Going};
ghost use Rattle.cycles.specs.Step.{Chosen, Followable, Followed, Enterable, entered, Closable, Closed, Countable, after, Storable, Stored};
ghost use Rattle.cycles.specs.Answer.{lent, CycleAnswers, OrderAnswers, GroupAnswers, Inner, Smallest, FoundIn, OrderedIn, GroupedIn, Numbered};

use columns::{clear, index, number};
use group_rows::{GROUP, PLACE, WIDTH, arrange, inner};

// Scratch has six numbers for each index: of a vertex its group, its place and its next arc; and by index the stack of open
// vertices, the path of the search, and the bounds of the groups along it.
const NEXT_ARC: usize = 2;

const STACK: usize = 3;

const PATH: usize = 4;

const BOUND: usize = 5;

// The group of a vertex that was not entered, and of one that is open; those of closed vertices come after them.
const NEW: usize = 0;

const OPEN: usize = 1;

const CLOSED: usize = 2;

// What the search does next.
#[derive(Clone, Copy)]
enum Step {
    Done,
    Skip,
    Enter(usize),
    Join,
    Pass(usize, usize),
    Leave,
    Close(usize),
}

// How far the search is: the root to try, the open vertices, those on the path, the groups along it, the closed vertices.
#[derive(Clone, Copy)]
struct Counts {
    root: usize,
    height: usize,
    depth: usize,
    groups: usize,
    finished: usize,
}

// Why nothing is answered: the two columns are no graph, or what was lent is too short and needs so many entries.
#[derive(Clone, Copy, Debug, PartialEq, Eq)]
pub enum GraphError {
    Malformed,
    ColumnShort(usize),
    ScratchShort(usize),
}

// One of the six numbers of an index.
// Form kept: (a) a function that other crates call has no `requires` (docs/DECISIONS.md), so `group_rows` has one of its own.
fn get(s: &[u32], column: usize, i: usize) -> usize
    requires { 6 * i + column < length s.now }
    ensures { result ≡ cell s.now column i }
{
    index(s[WIDTH * i + column])
}

fn put(s: &mut [u32], column: usize, i: usize, value: usize)
    requires { (6 * i + column < length s.old) × (value < 4294967296) }
    ensures { s.new ≡ set s.old (6 * i + column) value }
{
    s[WIDTH * i + column] = number(value);
}

// Where arc e of vertex v leads: to a new vertex, back to an earlier group, or nowhere new.
fn follow(to: &[u32], s: &[u32], groups: usize, v: usize, e: usize) -> Step
    requires { Followable to.now s.now groups e }
    ensures { Followed to.now (state s.now) groups v e result }
{
    let w = index(to[e]);
    let group = get(s, GROUP, w);
    if group == NEW {
        return Step::Enter(w);
    }
    if group != OPEN {
        return Step::Pass(v, e + 1);
    }
    let last = get(s, BOUND, groups - 1);
    if get(s, PLACE, w) < get(s, PATH, last) {
        return Step::Join;
    }
    Step::Pass(v, e + 1)
}

// The next step.
fn next(first: &[u32], to: &[u32], s: &[u32], c: Counts) -> Step
    requires { Going first.now to.now s.now c }
    ensures { Chosen first.now to.now (state s.now) c.root c.depth c.groups result }
{
    let depth = c.depth;
    if depth == 0 {
        let root = c.root;
        if first.len() - 1 <= root {
            return Step::Done;
        }
        if get(s, GROUP, root) == NEW {
            return Step::Enter(root);
        }
        return Step::Skip;
    }
    let p = get(s, PATH, depth - 1);
    let v = get(s, STACK, p);
    let e = get(s, NEXT_ARC, v);
    let groups = c.groups;
    if e < index(first[v + 1]) {
        return follow(to, s, groups, v, e);
    }
    if get(s, BOUND, groups - 1) == depth - 1 {
        return Step::Close(p);
    }
    Step::Leave
}

// Vertex w becomes the end of the path, and a group of its own.
fn enter(first: &[u32], s: &mut [u32], w: usize, c: Counts)
    requires { Enterable first.now s.old w c }
    ensures { s.new ≡ entered first.now s.old w c }
{
    let height = c.height;
    let depth = c.depth;
    put(s, GROUP, w, OPEN);
    put(s, PLACE, w, height);
    put(s, NEXT_ARC, w, index(first[w]));
    put(s, STACK, height, w);
    put(s, PATH, depth, height);
    put(s, BOUND, c.groups, depth);
}

// The open vertices from a place on are closed: they are a component, and have the next places.
fn close(s: &mut [u32], from: usize, height: usize, finished: usize)
    requires { Closable s.old from height finished }
    ensures { Closed s.old s.new from height finished }
{
    for i in from..height {
        let v = get(s, STACK, i);
        put(s, GROUP, v, finished + CLOSED);
        put(s, PLACE, v, finished + (i - from));
    }
}

// The counts after a step, where the search goes on.
fn counted(step: Step, c: Counts) -> Option<Counts>
    requires { Countable step c }
    ensures { result ≡ after step c }
{
    match step {
        Step::Done => None,
        Step::Skip => Some(Counts {
            root: c.root + 1,
            ..c
        }),
        Step::Enter(_) => Some(Counts {
            height: c.height + 1,
            depth: c.depth + 1,
            groups: c.groups + 1,
            ..c
        }),
        Step::Join => Some(Counts {
            groups: c.groups - 1,
            ..c
        }),
        Step::Pass(_, _) => Some(c),
        Step::Leave => Some(Counts {
            depth: c.depth - 1,
            ..c
        }),
        Step::Close(from) => Some(Counts {
            height: from,
            depth: c.depth - 1,
            groups: c.groups - 1,
            finished: c.finished + (c.height - from),
            ..c
        }),
    }
}

// What a step writes.
fn store(first: &[u32], s: &mut [u32], step: Step, c: Counts)
    requires { Storable first.now s.old step c }
    ensures { Stored first.now s.old s.new step c }
{
    match step {
        Step::Enter(w) => {
            enter(first, s, w, c);
        }
        Step::Pass(v, e) => {
            put(s, NEXT_ARC, v, e);
        }
        Step::Close(from) => {
            close(s, from, c.height, c.finished);
        }
        Step::Done | Step::Skip | Step::Join | Step::Leave => {}
    }
}

// Every vertex has the number of its component, and its place.
fn search(first: &[u32], to: &[u32], s: &mut [u32])
    requires { Ready first.now to.now s.old }
    ensures { Finished first.now to.now (state s.new) }
{
    clear(s, 0, 0);
    let mut c = Counts {
        root: 0,
        height: 0,
        depth: 0,
        groups: 0,
        finished: 0,
    };
    loop {
        let step = next(first, to, s, c);
        store(first, s, step, c);
        let Some(then) = counted(step, c) else {
            return;
        };
        c = then;
    }
}

// The smallest vertex with an arc into its own group.
fn least(first: &[u32], to: &[u32], s: &[u32]) -> Option<usize>
    requires { Ready first.now to.now s.now }
    ensures { Smallest (Inner first.now to.now (state s.now)) (vertices first.now) result }
{
    for v in 0..first.len() - 1 {
        if inner(first, to, s, v) {
            return Some(v);
        }
    }
    None
}

// Puts down the group of each vertex: the number of closed groups starts at 0.
fn number_groups(group: &mut [u32], s: &[u32], n: usize)
    requires { Numbered group.old s.now n }
    ensures { (v : ℕ) → v < n → get_or group.new v 0 ≡ cell s.now 0 v - 2 }
{
    for v in 0..n {
        group[v] = number(get(s, GROUP, v) - CLOSED);
    }
}

// The smallest vertex on a cycle; scratch is left with zeros.
fn cycle_in(first: &[u32], to: &[u32], s: &mut [u32]) -> Option<usize>
    requires { Ready first.now to.now s.old }
    ensures { FoundIn first.now to.now s.old s.new result }
{
    search(first, to, s);
    let cycle = least(first, to, s);
    clear(s, 0, 0);
    cycle
}

// The same, and the order, where there is no cycle.
fn order_in(first: &[u32], to: &[u32], order: &mut [u32], s: &mut [u32]) -> Option<usize>
    requires { Ready first.now to.now s.old × (length order.old ≡ vertices first.now) }
    ensures { OrderedIn first.now to.now order.old s.old order.new s.new result }
{
    search(first, to, s);
    let cycle = least(first, to, s);
    if cycle.is_none() {
        arrange(order, s, first.len() - 1);
    }
    clear(s, 0, 0);
    cycle
}

// The group of each vertex; scratch is left with zeros.
fn groups_in(first: &[u32], to: &[u32], group: &mut [u32], s: &mut [u32])
    requires { Ready first.now to.now s.old × (length group.old ≡ vertices first.now) }
    ensures { GroupedIn first.now to.now s.old group.new s.new }
{
    search(first, to, s);
    number_groups(group, s, first.len() - 1);
    clear(s, 0, 0);
}

// The smallest vertex that lies on a cycle.
pub fn least_on_cycle(
    first: &[u32],
    to: &[u32],
    scratch: &mut [u32],
) -> Result<Option<usize>, GraphError>
    ensures { CycleAnswers first.now to.now (lent [] scratch.old) (lent [] scratch.new) result }
{
    if !graph::valid(first, to) {
        return Err(GraphError::Malformed);
    }
    let n = first.len() - 1;
    let needed = WIDTH * n;
    if scratch.len() < needed {
        return Err(GraphError::ScratchShort(needed));
    }
    Ok(cycle_in(first, to, &mut scratch[..needed]))
}

// The vertices in an order in which each stands after all that it depends on; or the smallest vertex on a cycle.
pub fn topological_order(
    first: &[u32],
    to: &[u32],
    column: &mut [u32],
    scratch: &mut [u32],
) -> Result<Option<usize>, GraphError>
    ensures { OrderAnswers first.now to.now (lent column.old scratch.old) (lent column.new scratch.new) result }
{
    if !graph::valid(first, to) {
        return Err(GraphError::Malformed);
    }
    let n = first.len() - 1;
    if column.len() < n {
        return Err(GraphError::ColumnShort(n));
    }
    let needed = WIDTH * n;
    if scratch.len() < needed {
        return Err(GraphError::ScratchShort(needed));
    }
    Ok(order_in(first, to, &mut column[..n], &mut scratch[..needed]))
}

// The strongly connected component of each vertex, as the number of a group.
pub fn components(
    first: &[u32],
    to: &[u32],
    column: &mut [u32],
    scratch: &mut [u32],
) -> Result<(), GraphError>
    ensures { GroupAnswers first.now to.now (lent column.old scratch.old) (lent column.new scratch.new) result }
{
    if !graph::valid(first, to) {
        return Err(GraphError::Malformed);
    }
    let n = first.len() - 1;
    if column.len() < n {
        return Err(GraphError::ColumnShort(n));
    }
    let needed = WIDTH * n;
    if scratch.len() < needed {
        return Err(GraphError::ScratchShort(needed));
    }
    groups_in(first, to, &mut column[..n], &mut scratch[..needed]);
    Ok(())
}
