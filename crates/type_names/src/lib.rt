// Replies 10 and 11 of the names of types and supertypes; what each of them is bound to, and the graph of the declarations
// by what they rename, select or are subtypes of.
#![tactic(auto)]

ghost use Rattle.std.specs.Prelude.{◌≡◌, ◌<◌};
ghost use Rattle.faults.specs.Meaning.{number_of};
ghost use Rattle.type_names.specs.Pass.{Stored};
ghost use Rattle.type_names.specs.TypeName.{is_type_name_by, suits_by, makes_arc, target_by, Unbound, BoundTo, TypeNameMeant, FoundTypeName};
ghost use Rattle.type_names.specs.Binding.{BindsRange, BindsTypeNames};

use columns::{get_or, index, number, put};
use faults::{Fault, Reply};
use scopes::look_ups::{Meaning, declaration_meant};

// What is found of a node: its fault, its binding (one more than a node, or 0), and the target of its arc (one more than a
// vertex, or 0).
#[derive(Clone, Copy)]
pub struct Finding {
    pub fault: Option<Fault>,
    pub binding: u32,
    pub target: u32,
}

// So many places are left before the arcs, and this is the fault with the smallest place.
#[derive(Clone, Copy)]
pub struct Progress {
    pub arcs: usize,
    pub least: Option<Fault>,
}

// Stores what is found of a node, before what is found of the nodes behind it.
pub fn store(
    bound: &mut [u32],
    to: &mut [u32],
    node: usize,
    found: Finding,
    before: Progress,
) -> Progress
    ensures { Stored node found before bound.old to.old result bound.new to.new }
{
    put(bound, node, found.binding);
    let arcs = dependencies::add_arc(to, before.arcs, found.target);
    let least = faults::sooner(found.fault, before.least);
    Progress { arcs, least }
}

// May a name in a role mean a declaration of a kind?
fn suits(role: u32, kind: u8) -> bool
    ensures { result ≡ suits_by role kind }
{
    match role {
        codes::roles::RENAMED_TYPE => kind == codes::nodes::TYPE,
        codes::roles::SUPERTYPE_NAME => kind == codes::nodes::ENTITY,
        _ => kind == codes::nodes::TYPE || kind == codes::nodes::ENTITY,
    }
}

// Does a name in this role make an arc?
fn makes_arc(role: u32) -> bool
    ensures { result ≡ makes_arc role }
{
    role == codes::roles::RENAMED_TYPE
        || role == codes::roles::SELECT_NAME
        || role == codes::roles::SUPERTYPE_NAME
}

// The target of the arc that a name makes: one more than a vertex, or 0.
fn arc_target(role: u32, vertex: u32) -> u32
    ensures { result ≡ target_by role vertex }
{
    if makes_arc(role) { vertex } else { 0 }
}

// Is it the name of a type or of a supertype?
pub fn is_type_name(kind: u8, role: u32) -> bool
    ensures { result ≡ is_type_name_by kind role }
{
    (kind == codes::nodes::NAME) & (role != codes::roles::IN_EXPRESSION)
}

// A name that means no declaration, or several.
fn unbound(reply: Reply, place: u32) -> Finding
    ensures { Unbound (number_of reply) place result }
{
    Finding {
        fault: faults::fault_at(reply, place),
        binding: 0,
        target: 0,
    }
}

// A name in a role that means one declaration, by its vertex.
fn bound_to(kinds: &[u8], nodes: &[u32], role: u32, vertex: usize, place: u32) -> Finding
    requires { vertex < 18446744073709551615 }
    ensures { BoundTo kinds.now nodes.now role vertex place result }
{
    let node = index(get_or(nodes, vertex, 0));
    let fault = faults::wrong_sort(suits(role, get_or(kinds, node, 0)), place);
    let binding = number(node + 1);
    let target = arc_target(role, number(vertex + 1));
    Finding {
        fault,
        binding,
        target,
    }
}

// A name of a type, looked up in its schema.
fn type_name(
    kinds: &[u8],
    keys: &[u64],
    nodes: &[u32],
    heads: &[u32],
    next: &[u32],
    role: u32,
    schema: usize,
    symbol: u32,
    place: u32,
) -> Finding
    ensures { TypeNameMeant kinds.now keys.now nodes.now heads.now next.now role schema symbol place result }
{
    let meaning = declaration_meant(keys, heads, next, schema, symbol);
    match meaning {
        Meaning::Nothing => unbound(Reply::NotFound, place),
        Meaning::One(vertex) => bound_to(kinds, nodes, role, vertex, place),
        Meaning::Several => unbound(Reply::Ambiguous, place),
    }
}

// A node of a declaration that stands in a schema.
fn node_finding(
    kinds: &[u8],
    tokens: &[u32],
    roles: &[u8],
    symbols: &[u32],
    starts: &[u32],
    keys: &[u64],
    nodes: &[u32],
    heads: &[u32],
    next: &[u32],
    schema: usize,
    node: usize,
) -> Finding
    ensures { FoundTypeName kinds.now tokens.now roles.now symbols.now starts.now
        keys.now nodes.now heads.now next.now schema node result }
{
    let token = index(get_or(tokens, node, 0));
    type_name(
        kinds,
        keys,
        nodes,
        heads,
        next,
        get_or(roles, node, 0) as u32,
        schema,
        get_or(symbols, token, 0),
        get_or(starts, token, 0),
    )
}

// Binds the names of types among the nodes of one declaration, from the last to the first.
fn bind_range(
    kinds: &[u8],
    tokens: &[u32],
    roles: &[u8],
    symbols: &[u32],
    starts: &[u32],
    keys: &[u64],
    nodes: &[u32],
    heads: &[u32],
    next: &[u32],
    schema: usize,
    lo: usize,
    hi: usize,
    before: Progress,
    bound: &mut [u32],
    to: &mut [u32],
) -> Progress
    ensures { BindsRange kinds.now tokens.now roles.now symbols.now starts.now
        keys.now nodes.now heads.now next.now schema lo hi
        before bound.old to.old lo result bound.new to.new }
{
    let mut so_far = before;
    let end = hi.min(kinds.len().min(roles.len()));
    for i in (lo..end).rev() {
        if is_type_name(kinds[i], roles[i] as u32) {
            let found = node_finding(
                kinds, tokens, roles, symbols, starts, keys, nodes, heads, next, schema, i,
            );
            so_far = store(bound, to, i, found, so_far);
        }
    }
    so_far
}

// Binds the names of types and stores the arcs; the fault with the smallest place.
pub fn bind_type_names(
    kinds: &[u8],
    tokens: &[u32],
    roles: &[u8],
    symbols: &[u32],
    starts: &[u32],
    keys: &[u64],
    nodes: &[u32],
    heads: &[u32],
    next: &[u32],
    bound: &mut [u32],
    first: &mut [u32],
    to: &mut [u32],
) -> Option<Fault>
    ensures { BindsTypeNames kinds.now tokens.now roles.now symbols.now starts.now
        keys.now nodes.now heads.now next.now
        bound.old first.old to.old result bound.new first.new to.new }
{
    columns::clear(bound, 0, 0);
    let mut so_far = Progress {
        arcs: to.len(),
        least: None,
    };
    for v in (0..first.len().saturating_sub(1)).rev() {
        put(first, v + 1, number(so_far.arcs));
        let d = scopes::declaration(keys, nodes, v);
        so_far = bind_range(
            kinds, tokens, roles, symbols, starts, keys, nodes, heads, next, d.schema, d.from,
            d.node, so_far, bound, to,
        );
    }
    put(first, 0, number(so_far.arcs));
    so_far.least
}
