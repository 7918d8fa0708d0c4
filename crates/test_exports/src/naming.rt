// Interning, the dictionary over keys, and the names of a file.
ghost use Rattle.std.specs.Prelude.{◌≡◌};
ghost use Rattle.index.specs.Room.{done};
ghost use Rattle.symbols.specs.Interning.{Interns, FindsSymbol};
ghost use Rattle.index.specs.Dictionary.{Builds, Finds, Continues};
ghost use Rattle.names.specs.Resolution.{Resolves};
ghost use Rattle.test_exports.specs.Encoded.{Encoded, Encodes, entry, resolution_reply, resolution_place};

use index::Short;
use resolutions::Refusal;

fn is_done(outcome: Result<(), Short>) -> bool
    ensures { result ≡ done outcome }
{
    outcome.is_ok()
}

// What is answered where there is no entry.
const NOTHING: usize = 18446744073709551615;

fn entry_of(found: Option<usize>) -> usize
    ensures { result ≡ entry found }
{
    found.unwrap_or(NOTHING)
}

#[unsafe(no_mangle)]
pub extern "C" fn woffulent_intern(
    bytes: &[u8],
    starts: &[u32],
    lengths: &[u32],
    terminals: &[u8],
    symbols: &mut [u32],
    heads: &mut [u32],
    next: &mut [u32],
) -> bool
    ensures { Encoded done (λ o. Interns bytes.now starts.now lengths.now terminals.now symbols.old heads.old
        next.old o symbols.new heads.new next.new) result }
{
    is_done(symbols::intern(bytes, starts, lengths, terminals, symbols, heads, next))
}

#[unsafe(no_mangle)]
pub extern "C" fn woffulent_symbol_of(
    bytes: &[u8],
    starts: &[u32],
    lengths: &[u32],
    heads: &[u32],
    next: &[u32],
    word: &[u8],
) -> usize
    ensures { Encoded entry (FindsSymbol bytes.now starts.now lengths.now heads.now next.now word.now) result }
{
    entry_of(symbols::symbol_of(bytes, starts, lengths, heads, next, word))
}

#[unsafe(no_mangle)]
pub extern "C" fn woffulent_build(keys: &[u64], heads: &mut [u32], next: &mut [u32]) -> bool
    ensures { Encoded done (λ o. Builds keys.now heads.old next.old o heads.new next.new) result }
{
    is_done(index::dictionary::build(keys, heads, next))
}

#[unsafe(no_mangle)]
pub extern "C" fn woffulent_find(keys: &[u64], heads: &[u32], next: &[u32], key: u64) -> usize
    ensures { Encoded entry (Finds keys.now heads.now next.now key) result }
{
    entry_of(index::dictionary::find(keys, heads, next, key))
}

#[unsafe(no_mangle)]
pub extern "C" fn woffulent_next_of(keys: &[u64], next: &[u32], at: usize) -> usize
    ensures { Encoded entry (Continues keys.now next.now at) result }
{
    entry_of(index::dictionary::next_of(keys, next, at))
}

// Room that is lacking is no reply of the checker.
const ROOM_SHORT: u8 = 255;

fn resolution_reply(resolution: Result<(), Refusal>) -> u8
    ensures { result ≡ resolution_reply resolution }
{
    match resolution {
        Ok(()) => codes::replies::ACCEPTED,
        Err(Refusal::Faulty(fault)) => fault.reply.number(),
        Err(Refusal::Unfit) => ROOM_SHORT,
    }
}

fn resolution_place(resolution: Result<(), Refusal>) -> u32
    ensures { result ≡ resolution_place resolution }
{
    match resolution {
        Ok(()) => 0,
        Err(Refusal::Faulty(fault)) => fault.place,
        Err(Refusal::Unfit) => 0,
    }
}

#[unsafe(no_mangle)]
pub extern "C" fn woffulent_resolve(
    src: &[u8],
    starts: &[u32],
    lengths: &[u32],
    terminals: &[u8],
    kinds: &[u8],
    tokens: &[u32],
    sizes: &[u32],
    bindings: &mut [u32],
    roles: &mut [u8],
    symbols: &mut [u32],
    keys: &mut [u64],
    nodes: &mut [u32],
    heads: &mut [u32],
    next: &mut [u32],
    first: &mut [u32],
    to: &mut [u32],
    types: &mut [u32],
    constants: &mut [u32],
    scratch: &mut [u32],
    place: &mut u32,
) -> u8
    ensures { Encodes resolution_reply resolution_place (λ o. Resolves
        src.now starts.now lengths.now terminals.now kinds.now tokens.now sizes.now
        bindings.old roles.old symbols.old keys.old nodes.old heads.old next.old first.old
        to.old types.old constants.old scratch.old
        o bindings.new types.new constants.new) result place.new }
{
    let resolution = names::resolve(
        src, starts, lengths, terminals, kinds, tokens, sizes, bindings, roles, symbols, keys,
        nodes, heads, next, first, to, types, constants, scratch,
    );
    *place = resolution_place(resolution);
    resolution_reply(resolution)
}
