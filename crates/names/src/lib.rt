// The names of a file, from its bytes, its tokens and its nodes.
#![tactic(auto)]

ghost use Rattle.std.specs.Prelude.{◌≤◌, length};
ghost use Rattle.names.specs.Resolution.{BindsPrepared, ResolvesRoles, Resolves};
ghost use Rattle.resolutions.specs.Answer.{StageRoom};

use faults::Fault;
use name_binding::{bind_names, prepare};
use resolutions::{Refusal, finish, narrow, room};

// Binds all names, with the dictionary of so many entries at the front of its columns.
fn bind_prepared(
    kinds: &[u8],
    tokens: &[u32],
    sizes: &[u32],
    roles: &[u8],
    symbols: &[u32],
    starts: &[u32],
    keys: &[u64],
    nodes: &[u32],
    heads: &[u32],
    next: &[u32],
    vertices: usize,
    entries: usize,
    bound: &mut [u32],
    first: &mut [u32],
    to: &mut [u32],
    types: &mut [u32],
    constants: &mut [u32],
    scratch: &mut [u32],
) -> Option<Fault>
    requires { StageRoom (length starts.now) vertices (length first.old) (length to.old) (length types.old) (length constants.old) (length scratch.old)
        × (entries ≤ length keys.now) × (entries ≤ length nodes.now) }
    ensures { BindsPrepared kinds.now tokens.now sizes.now roles.now symbols.now starts.now keys.now
        nodes.now heads.now next.now bound.old
        vertices entries result bound.new types.new constants.new }
{
    bind_names(
        kinds,
        tokens,
        sizes,
        roles,
        symbols,
        starts,
        &keys[..entries],
        &nodes[..entries],
        heads,
        next,
        bound,
        &mut first[..vertices + 1],
        to,
        types,
        constants,
        scratch,
    )
}

// Binds the names of a file with its roles in a column of bytes. The scratch serves the links of interning first.
fn resolve_roles(
    src: &[u8],
    starts: &[u32],
    lengths: &[u32],
    terminals: &[u8],
    kinds: &[u8],
    tokens: &[u32],
    sizes: &[u32],
    roles: &[u8],
    bindings: &mut [u32],
    symbols: &mut [u32],
    keys: &mut [u64],
    nodes: &mut [u32],
    heads: &mut [u32],
    next: &mut [u32],
    first: &mut [u32],
    to: &mut [u32],
    types: &mut [u32],
    constants: &mut [u32],
    scratch: &mut [u32],
) -> Result<(), Refusal>
    ensures { ResolvesRoles src.now starts.now lengths.now terminals.now kinds.now tokens.now sizes.now
        roles.now bindings.old symbols.old keys.old nodes.old heads.old next.old
        first.old to.old types.old constants.old scratch.old
        result bindings.new types.new constants.new }
{
    prepare(
        src, starts, lengths, terminals, kinds, tokens, roles, symbols, keys, nodes, heads,
        scratch, next,
    )?;
    let counts = preparation::count_entries(kinds, roles);
    let enough = room(
        starts.len(),
        counts.declarations,
        first.len(),
        to.len(),
        types.len(),
        constants.len(),
        scratch.len(),
    );
    if !enough {
        return Err(Refusal::Unfit);
    }
    let fault = bind_prepared(
        kinds,
        tokens,
        sizes,
        roles,
        &symbols[..starts.len()],
        starts,
        keys,
        nodes,
        heads,
        next,
        counts.declarations,
        counts.declarations + counts.others,
        bindings,
        first,
        to,
        types,
        constants,
        scratch,
    );
    finish(fault, roles, bindings)
}

// Binds the names of a file: the column of bindings holds the roles of the nodes, and where no name is at fault the bindings afterwards.
pub fn resolve(
    src: &[u8],
    starts: &[u32],
    lengths: &[u32],
    terminals: &[u8],
    kinds: &[u8],
    tokens: &[u32],
    sizes: &[u32],
    bindings: &mut [u32],
    roles: &mut [u8],
    symbols: &mut [u32],
    keys: &mut [u64],
    nodes: &mut [u32],
    heads: &mut [u32],
    next: &mut [u32],
    first: &mut [u32],
    to: &mut [u32],
    types: &mut [u32],
    constants: &mut [u32],
    scratch: &mut [u32],
) -> Result<(), Refusal>
    ensures { Resolves src.now starts.now lengths.now terminals.now kinds.now tokens.now sizes.now
        bindings.old roles.old symbols.old keys.old nodes.old heads.old next.old
        first.old to.old types.old constants.old scratch.old
        result bindings.new types.new constants.new }
{
    if !narrow(bindings, roles) {
        return Err(Refusal::Unfit);
    }
    let n = bindings.len();
    resolve_roles(
        src,
        starts,
        lengths,
        terminals,
        kinds,
        tokens,
        sizes,
        &roles[..n],
        bindings,
        symbols,
        keys,
        nodes,
        heads,
        next,
        first,
        to,
        types,
        constants,
        scratch,
    )
}
