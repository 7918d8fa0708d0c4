// The end of a check: zeros behind what stands in each column and in the room, and the report.
#![tactic(auto)]

ghost use Rattle.demands.specs.Checks.{tables_of};
ghost use Rattle.conclusions.specs.Conclusion.{Concludes};

use columns::clear;
use reports::{Report, clear_answers, clear_nodes, clear_tokens, kept, summary};
use stages::{Stage, count};

// The end of a check, from the numbers of tokens and nodes and how the last stage ended.
pub fn conclude(
    tokens: usize,
    nodes: usize,
    last: Stage,
    token_kinds: &mut [u8],
    token_starts: &mut [u32],
    token_lengths: &mut [u32],
    node_kinds: &mut [u8],
    node_tokens: &mut [u32],
    node_sizes: &mut [u32],
    node_bindings: &mut [u32],
    answer_kinds: &mut [u8],
    answer_numbers: &mut [i64],
    answer_lengths: &mut [u8],
    room: &mut [u8],
) -> Report
    ensures { Concludes tokens nodes last
        (tables_of token_kinds.old token_starts.old token_lengths.old
        node_kinds.old node_tokens.old node_sizes.old node_bindings.old
        answer_kinds.old answer_numbers.old answer_lengths.old room.old)
        (tables_of token_kinds.new token_starts.new token_lengths.new
        node_kinds.new node_tokens.new node_sizes.new node_bindings.new
        answer_kinds.new answer_numbers.new answer_lengths.new room.new) result }
{
    clear_tokens(token_kinds, token_starts, token_lengths, kept(last, tokens));
    clear_nodes(
        node_kinds,
        node_tokens,
        node_sizes,
        node_bindings,
        kept(last, nodes),
    );
    clear_answers(answer_kinds, answer_numbers, answer_lengths, count(last));
    clear(room, kept(last, room.len()), 0);
    summary(tokens, nodes, last)
}
