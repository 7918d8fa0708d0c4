// Replies 10 to 12 of names in expressions, of SELF in a constant and of own names that are inherited too; what each name is
// bound to, and the graph of the declarations by the constants that they name.
#![tactic(auto)]

ghost use Rattle.std.specs.Prelude.{◌≡◌, ◌≤◌, length};
ghost use Rattle.scopes.specs.NoneFrom.{NoneFrom};
ghost use Rattle.uses.specs.Binding.{finds_by, may_find, may_find_at, Decodes, FindingAt, BindsRange, BindsUses};

use columns::{get_or, index, number, put};
use faults::Fault;
use meanings::Use;
use schema_items::{item_at, turn_to};
use type_names::{Finding, Progress, store};

// Is there something to find of a node: a name in an expression, `type.item`, SELF, or an attribute or label that is inherited too, as its
// code says? Most other nodes have the code 0.
fn has_finding(kind: u8, role: u32, code: u32) -> bool
    ensures { result ≡ finds_by kind role code }
{
    match kind {
        codes::nodes::NAME => role == codes::roles::IN_EXPRESSION,
        codes::nodes::QUALIFIED_ITEM | codes::nodes::SELF_REFERENCE => true,
        _ => code != 0 && scopes::is_scope_member(kind, role),
    }
}

// May something be found of a node? Most are literals and operators, or attributes that are not inherited too.
fn may_find(kind: u8, role: u8, code: u32) -> bool
    ensures { result ≡ may_find kind role code }
{
    let used = (kind == codes::nodes::NAME) & (role as u32 == codes::roles::IN_EXPRESSION);
    let other = (codes::nodes::NAME < kind) & (kind <= codes::nodes::SELF_REFERENCE);
    let inherited = (codes::nodes::ATTRIBUTE_NAME <= kind) & (code != 0);
    used | (other | inherited)
}

// The nodes from lo up to an end, without the last ones, of which nothing can be found.
fn found_before(kinds: &[u8], roles: &[u8], bound: &[u32], lo: usize, end: usize) -> usize
    requires { (end ≤ length kinds.now) × (end ≤ length roles.now) }
    ensures { NoneFrom (may_find_at kinds.now roles.now bound.now) lo end result }
{
    for i in (lo..end).rev() {
        if may_find(kinds[i], roles[i], get_or(bound, i, 0)) {
            return i + 1;
        }
    }
    lo.min(end)
}

// What is inherited, or meant among the items of a schema, from its code.
fn decoded(code: u32) -> Use
    ensures { Decodes code result }
{
    if code == 0 {
        return Use::Nothing;
    }
    if code == symbol_tables::SEVERAL {
        return Use::Several;
    }
    Use::Node(index(code - 1))
}

// What is found of a node of an owner in a schema, given the code of what its symbol inherits there, and the items of the schema in a
// table.
fn finding_at(
    kinds: &[u8],
    tokens: &[u32],
    sizes: &[u32],
    symbols: &[u32],
    starts: &[u32],
    keys: &[u64],
    nodes: &[u32],
    heads: &[u32],
    next: &[u32],
    items: &[u32],
    stamp: u32,
    owner: usize,
    schema: usize,
    code: u32,
    node: usize,
) -> Finding
    ensures { FindingAt kinds.now tokens.now sizes.now symbols.now starts.now
        keys.now nodes.now heads.now next.now items.now stamp owner schema code node result }
{
    let kind = get_or(kinds, node, 0);
    let inherited = decoded(code);
    let item = decoded(item_at(tokens, symbols, items, stamp, node));
    findings::nodes::node_finding(
        kinds, tokens, sizes, symbols, starts, keys, nodes, heads, next, kind, owner, schema,
        inherited, item, node,
    )
}

// Binds the names in the expressions of one declaration, from the last node to the first.
fn bind_range(
    kinds: &[u8],
    tokens: &[u32],
    sizes: &[u32],
    roles: &[u8],
    symbols: &[u32],
    starts: &[u32],
    keys: &[u64],
    nodes: &[u32],
    heads: &[u32],
    next: &[u32],
    items: &[u32],
    stamp: u32,
    schema: usize,
    lo: usize,
    hi: usize,
    before: Progress,
    bound: &mut [u32],
    to: &mut [u32],
) -> Progress
    ensures { BindsRange kinds.now tokens.now sizes.now roles.now symbols.now starts.now
        keys.now nodes.now heads.now next.now items.now stamp schema lo hi
        before bound.old to.old lo result bound.new to.new }
{
    let mut so_far = before;
    let reach = hi.min(kinds.len().min(roles.len()));
    let mut i = found_before(kinds, roles, bound, lo, reach);
    while lo < i {
        let n = i - 1;
        i = found_before(kinds, roles, bound, lo, n);
        let code = get_or(bound, n, 0);
        if has_finding(kinds[n], roles[n] as u32, code) {
            let found = finding_at(
                kinds, tokens, sizes, symbols, starts, keys, nodes, heads, next, items, stamp, hi,
                schema, code, n,
            );
            so_far = store(bound, to, n, found, so_far);
        }
    }
    so_far
}

// Binds the names in expressions and stores the arcs; the fault with the smallest place. The column holds the bindings of names
// of types and the codes of what other names inherit, and is left with the bindings of all names. The items of one schema at a time stand
// in a table by symbol.
pub fn bind_uses(
    kinds: &[u8],
    tokens: &[u32],
    sizes: &[u32],
    roles: &[u8],
    symbols: &[u32],
    starts: &[u32],
    keys: &[u64],
    nodes: &[u32],
    heads: &[u32],
    next: &[u32],
    bound: &mut [u32],
    first: &mut [u32],
    to: &mut [u32],
    items: &mut [u32],
) -> Option<Fault>
    ensures { BindsUses kinds.now tokens.now sizes.now roles.now symbols.now starts.now
        keys.now nodes.now heads.now next.now
        bound.old first.old to.old items.old result bound.new first.new to.new }
{
    let mut so_far = Progress {
        arcs: to.len(),
        least: None,
    };
    let mut tabled = schema_items::begin(items);
    for v in (0..first.len().saturating_sub(1)).rev() {
        put(first, v + 1, number(so_far.arcs));
        let stamp = number(v + 1);
        let d = scopes::declaration(keys, nodes, v);
        tabled = turn_to(
            kinds, tokens, sizes, symbols, d.schema, stamp, tabled, items,
        );
        so_far = bind_range(
            kinds,
            tokens,
            sizes,
            roles,
            symbols,
            starts,
            keys,
            nodes,
            heads,
            next,
            items,
            tabled.stamp,
            d.schema,
            d.from,
            d.node,
            so_far,
            bound,
            to,
        );
    }
    put(first, 0, number(so_far.arcs));
    so_far.least
}
