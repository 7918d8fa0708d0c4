// The tokens and the nodes of a file, from its bytes. The words of the parser are in an array of the call, in one of four sizes, and gone after it.
#![tactic(auto)]

ghost use Rattle.std.specs.Prelude.{◌≤◌};
ghost use Rattle.express.specs.Tokens.Lexis.{most};
ghost use Rattle.reading.specs.FileReading.{ReadsWithin, ReadsFile};

use stages::{Stage, count, fit_constants, read_nodes, scan_tokens};

// The bytes of a small file, of one of middle size, and of the largest. A file has no more tokens than bytes.
pub const SMALL: usize = 2048;

pub const MIDDLE: usize = 16384;

pub const LARGE: usize = codes::limits::BYTES as usize;

// Once tokens and nodes are counted, arrays go by their number: most files have a token for three bytes or more. The largest file is LARGE here too.
pub const FEW: usize = 512;

pub const SOME: usize = 6144;

pub const MANY: usize = 20480;

// How many tokens and nodes there are, and how the stages end.
#[derive(Clone, Copy)]
pub struct Reading {
    pub tokens: usize,
    pub nodes: usize,
    pub stage: Stage,
}

// The nodes with a word of the parser for each of ROWS tokens. Each size is a function of its own, so that its array is in no frame of a caller.
#[inline(never)]
fn read_within<const ROWS: usize>(
    before: Stage,
    src: &[u8],
    token_kinds: &[u8],
    starts: &[u32],
    lengths: &[u32],
    terminals: &mut [u8],
    kinds: &mut [u8],
    tokens: &mut [u32],
    sizes: &mut [u32],
    roles: &mut [u32],
) -> Stage
    requires { ROWS ≤ most }
    ensures { ReadsWithin ROWS src.now before token_kinds.now starts.now lengths.now terminals.old
        kinds.old tokens.old sizes.old roles.old result
        terminals.new kinds.new tokens.new sizes.new roles.new }
{
    let mut words = [0u64; ROWS];
    read_nodes(
        before,
        src,
        token_kinds,
        starts,
        lengths,
        terminals,
        &mut words,
        kinds,
        tokens,
        sizes,
        roles,
    )
}

// The array by the number of tokens, so that a small file clears little.
fn read_framed(
    before: Stage,
    src: &[u8],
    token_kinds: &[u8],
    starts: &[u32],
    lengths: &[u32],
    terminals: &mut [u8],
    kinds: &mut [u8],
    tokens: &mut [u32],
    sizes: &mut [u32],
    roles: &mut [u32],
) -> Stage
    ensures { ReadsWithin most src.now before token_kinds.now starts.now lengths.now terminals.old
        kinds.old tokens.old sizes.old roles.old result
        terminals.new kinds.new tokens.new sizes.new roles.new }
{
    if token_kinds.len() <= SOME {
        return read_within::<SOME>(
            before,
            src,
            token_kinds,
            starts,
            lengths,
            terminals,
            kinds,
            tokens,
            sizes,
            roles,
        );
    }
    if token_kinds.len() <= MANY {
        return read_within::<MANY>(
            before,
            src,
            token_kinds,
            starts,
            lengths,
            terminals,
            kinds,
            tokens,
            sizes,
            roles,
        );
    }
    read_within::<LARGE>(
        before,
        src,
        token_kinds,
        starts,
        lengths,
        terminals,
        kinds,
        tokens,
        sizes,
        roles,
    )
}

// For short files the smallest array where there are few tokens.
fn read_sized<const SHORT: bool>(
    before: Stage,
    src: &[u8],
    token_kinds: &[u8],
    starts: &[u32],
    lengths: &[u32],
    terminals: &mut [u8],
    kinds: &mut [u8],
    tokens: &mut [u32],
    sizes: &mut [u32],
    roles: &mut [u32],
) -> Stage
    ensures { ReadsWithin most src.now before token_kinds.now starts.now lengths.now terminals.old
        kinds.old tokens.old sizes.old roles.old result
        terminals.new kinds.new tokens.new sizes.new roles.new }
{
    if SHORT && token_kinds.len() <= FEW {
        return read_within::<FEW>(
            before,
            src,
            token_kinds,
            starts,
            lengths,
            terminals,
            kinds,
            tokens,
            sizes,
            roles,
        );
    }
    read_framed(
        before,
        src,
        token_kinds,
        starts,
        lengths,
        terminals,
        kinds,
        tokens,
        sizes,
        roles,
    )
}

// From the bytes of a file to its nodes and the room for its answers. For short files with an array for few tokens
// where there are few, for the whole of a frame is touched page by page where it is entered.
pub fn read_file<const SHORT: bool>(
    src: &[u8],
    token_kinds: &mut [u8],
    token_starts: &mut [u32],
    token_lengths: &mut [u32],
    terminals: &mut [u8],
    node_kinds: &mut [u8],
    node_tokens: &mut [u32],
    node_sizes: &mut [u32],
    roles: &mut [u32],
    answers: usize,
) -> Reading
    ensures { ReadsFile src.now token_kinds.old token_starts.old token_lengths.old
        terminals.old node_kinds.old node_tokens.old node_sizes.old roles.old
        answers result token_kinds.new token_starts.new token_lengths.new
        terminals.new node_kinds.new node_tokens.new node_sizes.new roles.new }
{
    let scanned = scan_tokens(src, token_kinds, token_starts, token_lengths);
    let tokens = count(scanned).min(terminals.len());
    let read = read_sized::<SHORT>(
        scanned,
        src,
        &token_kinds[..tokens],
        &token_starts[..tokens],
        &token_lengths[..tokens],
        terminals,
        node_kinds,
        node_tokens,
        node_sizes,
        roles,
    );
    let entries = node_kinds
        .len()
        .min(node_tokens.len())
        .min(node_sizes.len().min(roles.len()));
    let nodes = count(read).min(entries);
    let fit = fit_constants(read, &node_kinds[..nodes], answers);
    Reading {
        tokens,
        nodes,
        stage: fit,
    }
}
