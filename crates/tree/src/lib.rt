// Reading the columns of a tree: an entry, a child of a node, the next node of a kind.
#![tactic(auto)]

ghost use Rattle.std.specs.Prelude.{◌≡◌, ◌+◌, ◌-◌, ◌≤◌, ◌<◌, eqb, length, get_or};
ghost use Rattle.relations.specs.Select.{span, first_from, any};
ghost use Rattle.express.specs.Syntax.Tree as Tree;
ghost use Rattle.tree.specs.Children.{Child};
ghost use Rattle.tree.specs.Blocks.{Skips};

// The number at an index, as an index; past the end of the column 0.
pub fn index_at(column: &[u32], i: usize) -> usize
    ensures { result ≡ get_or column.now i 0 }
{
    columns::index(columns::get_or(column, i, 0))
}

// The last child of a node stands just before it, each other child just before the tree of the next.
pub fn last(n: usize) -> usize
    ensures { result ≡ n - 1 }
{
    n.saturating_sub(1)
}

pub fn before(sizes: &[u32], n: usize) -> usize
    ensures { Child Tree.before sizes.now n result }
{
    n.saturating_sub(index_at(sizes, n))
}

pub fn left(sizes: &[u32], n: usize) -> usize
    ensures { Child Tree.left sizes.now n result }
{
    before(sizes, last(n))
}

pub fn middle(sizes: &[u32], n: usize) -> usize
    ensures { Child Tree.middle sizes.now n result }
{
    before(sizes, left(sizes, n))
}

pub fn lower(sizes: &[u32], n: usize) -> usize
    ensures { Child Tree.lower sizes.now n result }
{
    before(sizes, middle(sizes, n))
}

pub fn low(sizes: &[u32], n: usize) -> usize
    ensures { Child Tree.low sizes.now n result }
{
    before(sizes, lower(sizes, n))
}

// So many nodes are looked at one by one, for the next of a kind is often near. Behind them nodes are looked at together, and passed over where none is
// of the kind: first many, then few.
const NEAR: usize = 8;

const MANY: usize = 64;

const FEW: usize = 16;

// The first node of a kind from a node up to an end; where there is none, the end or, past it, the node itself.
fn next_before(kinds: &[u8], kind: u8, from: usize, end: usize) -> usize
    requires { end ≤ length kinds.now }
    ensures { result ≡ first_from (λ n. eqb (get_or kinds.now n 0) kind) from (end - from) }
{
    for n in from..end {
        if kinds[n] == kind {
            return n;
        }
    }
    from.max(end)
}

// Is one of the block from a node on of a kind? All are looked at, without a jump, which the compiler does at once.
fn in_block(kinds: &[u8], kind: u8, from: usize, block: usize) -> bool
    requires { from + block ≤ length kinds.now }
    ensures { result ≡ any (λ n. eqb (get_or kinds.now n 0) kind) (span from block) }
{
    let mut found = false;
    for n in from..from + block {
        found |= kinds[n] == kind;
    }
    found
}

// A node from which on the first of a kind is the same: blocks that have none are passed over.
fn skip_blocks(kinds: &[u8], kind: u8, from: usize, block: usize) -> usize
    requires { 0 < block }
    ensures { Skips (λ n. eqb (get_or kinds.now n 0) kind) (length kinds.now) from result }
{
    let whole = kinds.len().saturating_sub(block - 1);
    let mut at = from;
    // Form kept: (d) a `for` with steps does not tell where the last block ends, which is the answer.
    while at < whole {
        if in_block(kinds, kind, at, block) {
            return at;
        }
        at += block;
    }
    at
}

// The first node of a kind from a node on; where there is none, the number of nodes or, past it, the node itself.
pub fn next_of_kind(kinds: &[u8], kind: u8, from: usize) -> usize
    ensures { result ≡ first_from (λ n. eqb (get_or kinds.now n 0) kind) from (length kinds.now - from) }
{
    let left = kinds.len().saturating_sub(from);
    let near = kinds.len() - left.saturating_sub(NEAR);
    let first = next_before(kinds, kind, from, near);
    if first < near {
        return first;
    }
    let far = skip_blocks(kinds, kind, first, MANY);
    let behind = skip_blocks(kinds, kind, far, FEW);
    next_before(kinds, kind, behind, kinds.len())
}
