// The public call: all stages of a file run, then each column and the room is cleared behind what stands in it, and the report is made.
#![tactic(auto)]

ghost use Rattle.demands.specs.Checks.{Checks, tables_of};
ghost use Rattle.reports.specs.Reporting.{report_of};

use conclusions::conclude;
use reports::Report;
use running::run;

pub fn check(
    src: &[u8],
    token_kinds: &mut [u8],
    token_starts: &mut [u32],
    token_lengths: &mut [u32],
    node_kinds: &mut [u8],
    node_tokens: &mut [u32],
    node_sizes: &mut [u32],
    node_bindings: &mut [u32],
    answer_kinds: &mut [u8],
    answer_numbers: &mut [i64],
    answer_lengths: &mut [u8],
    room: &mut [u8],
) -> Report
    ensures { Checks src.now
        (tables_of token_kinds.old token_starts.old token_lengths.old
        node_kinds.old node_tokens.old node_sizes.old node_bindings.old
        answer_kinds.old answer_numbers.old answer_lengths.old room.old)
        (tables_of token_kinds.new token_starts.new token_lengths.new
        node_kinds.new node_tokens.new node_sizes.new node_bindings.new
        answer_kinds.new answer_numbers.new answer_lengths.new room.new) (report_of result) }
{
    let ran = run(
        src,
        token_kinds,
        token_starts,
        token_lengths,
        node_kinds,
        node_tokens,
        node_sizes,
        node_bindings,
        answer_kinds,
        answer_numbers,
        answer_lengths,
        room,
    );
    let tokens = ran.tokens;
    let nodes = ran.nodes;
    let last = ran.stage;
    conclude(
        tokens,
        nodes,
        last,
        token_kinds,
        token_starts,
        token_lengths,
        node_kinds,
        node_tokens,
        node_sizes,
        node_bindings,
        answer_kinds,
        answer_numbers,
        answer_lengths,
        room,
    )
}
