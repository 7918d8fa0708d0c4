// All stages of a file, one after the other: what they leave, and how the last of them ended. What has arrays is never put into its caller, here and
// in the stages, so that the arrays of one stage are in no frame with those of another.
#![tactic(auto)]

ghost use Rattle.demands.specs.Checks.{tables_of};
ghost use Rattle.running.specs.Run.{Sizes, Ran, RunsWithin};

use answer_frames::answer_sized;
use name_frames::name_sized;
use pipeline::File;
use reading::{LARGE, MIDDLE, Reading, SMALL, read_file};

// A file has a declaration for each five tokens at most.
const SMALL_DECLARED: usize = SMALL / 5;

const MIDDLE_DECLARED: usize = MIDDLE / 5;

const LARGE_DECLARED: usize = LARGE / 5;

// All stages of a file of at most BYTES tokens, one after the other; the arrays here outlive a stage.
#[inline(never)]
fn run_within<const BYTES: usize, const DECLARED: usize, const SHORT: bool>(
    src: &[u8],
    token_kinds: &mut [u8],
    token_starts: &mut [u32],
    token_lengths: &mut [u32],
    node_kinds: &mut [u8],
    node_tokens: &mut [u32],
    node_sizes: &mut [u32],
    node_bindings: &mut [u32],
    answer_kinds: &mut [u8],
    answer_numbers: &mut [i64],
    answer_lengths: &mut [u8],
    room: &mut [u8],
) -> Reading
    requires { Sizes BYTES DECLARED }
    ensures { RunsWithin BYTES src.now
        (tables_of token_kinds.old token_starts.old token_lengths.old
        node_kinds.old node_tokens.old node_sizes.old node_bindings.old
        answer_kinds.old answer_numbers.old answer_lengths.old room.old)
        (tables_of token_kinds.new token_starts.new token_lengths.new
        node_kinds.new node_tokens.new node_sizes.new node_bindings.new
        answer_kinds.new answer_numbers.new answer_lengths.new room.new) result }
{
    let mut terminals = [0u8; BYTES];
    let mut types = [0u32; DECLARED];
    let mut constants = [0u32; DECLARED];
    let answers = answer_kinds
        .len()
        .min(answer_numbers.len().min(answer_lengths.len()));
    let read = read_file::<SHORT>(
        src,
        token_kinds,
        token_starts,
        token_lengths,
        &mut terminals,
        node_kinds,
        node_tokens,
        node_sizes,
        node_bindings,
        answers,
    );
    let tokens = read.tokens;
    let nodes = read.nodes;
    let stage = read.stage;
    let file = File {
        src,
        starts: &token_starts[..tokens],
        lengths: &token_lengths[..tokens],
        terminals: &terminals[..tokens],
        kinds: &node_kinds[..nodes],
        tokens: &node_tokens[..nodes],
        sizes: &node_sizes[..nodes],
    };
    let named = name_sized::<SHORT>(
        stage,
        &file,
        &mut node_bindings[..nodes],
        &mut types,
        &mut constants,
    );
    let last = answer_sized::<SHORT>(
        named,
        &file,
        &node_bindings[..nodes],
        &types,
        &constants,
        answer_kinds,
        answer_numbers,
        answer_lengths,
        room,
    );
    Reading {
        tokens,
        nodes,
        stage: last,
    }
}

// The arrays by the number of bytes, so that a small file clears little.
// Form kept: (c) of the columns in a struct of `&mut` slices, lent, the caller's `returns` stayed open: the callee may put other slices into it.
pub fn run(
    src: &[u8],
    token_kinds: &mut [u8],
    token_starts: &mut [u32],
    token_lengths: &mut [u32],
    node_kinds: &mut [u8],
    node_tokens: &mut [u32],
    node_sizes: &mut [u32],
    node_bindings: &mut [u32],
    answer_kinds: &mut [u8],
    answer_numbers: &mut [i64],
    answer_lengths: &mut [u8],
    room: &mut [u8],
) -> Reading
    ensures { Ran src.now
        (tables_of token_kinds.old token_starts.old token_lengths.old
        node_kinds.old node_tokens.old node_sizes.old node_bindings.old
        answer_kinds.old answer_numbers.old answer_lengths.old room.old)
        (tables_of token_kinds.new token_starts.new token_lengths.new
        node_kinds.new node_tokens.new node_sizes.new node_bindings.new
        answer_kinds.new answer_numbers.new answer_lengths.new room.new) result.tokens result.nodes result.stage }
{
    if src.len() <= SMALL {
        return run_within::<SMALL, SMALL_DECLARED, true>(
            src,
            token_kinds,
            token_starts,
            token_lengths,
            node_kinds,
            node_tokens,
            node_sizes,
            node_bindings,
            answer_kinds,
            answer_numbers,
            answer_lengths,
            room,
        );
    }
    if src.len() <= MIDDLE {
        return run_within::<MIDDLE, MIDDLE_DECLARED, false>(
            src,
            token_kinds,
            token_starts,
            token_lengths,
            node_kinds,
            node_tokens,
            node_sizes,
            node_bindings,
            answer_kinds,
            answer_numbers,
            answer_lengths,
            room,
        );
    }
    run_within::<LARGE, LARGE_DECLARED, false>(
        src,
        token_kinds,
        token_starts,
        token_lengths,
        node_kinds,
        node_tokens,
        node_sizes,
        node_bindings,
        answer_kinds,
        answer_numbers,
        answer_lengths,
        room,
    )
}
