// The public call under a C name, for programs in other languages: a number passes as itself, a slice as a pointer and a length, and what
// stands beside the reply through places that are lent.
#![tactic(auto)]

ghost use Rattle.std.specs.Prelude.{◌≡◌};
ghost use Rattle.demands.specs.Checks.{Checks, tables_of};
ghost use Rattle.reports.specs.Reporting.{report_of};
ghost use Rattle.record_demands.specs.Records.{record_tables};
ghost use Rattle.woffulent.specs.Call.{report_by};

use records::Answer;
use reports::Report;

// The reply, and what stands beside it in its places.
fn put_report(
    report: Report,
    number: &mut u32,
    tokens: &mut u32,
    nodes: &mut u32,
    constants: &mut u32,
) -> u8
    ensures { report_by result number.new tokens.new nodes.new constants.new ≡ report_of report }
{
    *number = report.number;
    *tokens = report.tokens;
    *nodes = report.nodes;
    *constants = report.constants;
    report.reply
}

#[unsafe(no_mangle)]
pub extern "C" fn woffulent_check(
    src: &[u8],
    token_kinds: &mut [u8],
    token_starts: &mut [u32],
    token_lengths: &mut [u32],
    node_kinds: &mut [u8],
    node_tokens: &mut [u32],
    node_sizes: &mut [u32],
    node_bindings: &mut [u32],
    answer_kinds: &mut [u8],
    answer_numbers: &mut [i64],
    answer_lengths: &mut [u8],
    room: &mut [u8],
    number: &mut u32,
    tokens: &mut u32,
    nodes: &mut u32,
    constants: &mut u32,
) -> u8
    ensures { Checks src.now
        (tables_of token_kinds.old token_starts.old token_lengths.old
        node_kinds.old node_tokens.old node_sizes.old node_bindings.old
        answer_kinds.old answer_numbers.old answer_lengths.old room.old)
        (tables_of token_kinds.new token_starts.new token_lengths.new
        node_kinds.new node_tokens.new node_sizes.new node_bindings.new
        answer_kinds.new answer_numbers.new answer_lengths.new room.new)
        (report_by result number.new tokens.new nodes.new constants.new) }
{
    let report = checker::check(
        src,
        token_kinds,
        token_starts,
        token_lengths,
        node_kinds,
        node_tokens,
        node_sizes,
        node_bindings,
        answer_kinds,
        answer_numbers,
        answer_lengths,
        room,
    );
    put_report(report, number, tokens, nodes, constants)
}

// The call with records (R11).
#[unsafe(no_mangle)]
pub extern "C" fn woffulent_check_records(
    src: &[u8],
    token_kinds: &mut [u8],
    token_starts: &mut [u32],
    token_lengths: &mut [u32],
    node_kinds: &mut [u8],
    node_tokens: &mut [u32],
    node_sizes: &mut [u32],
    node_bindings: &mut [u32],
    records: &mut [Answer],
    room: &mut [u8],
    number: &mut u32,
    tokens: &mut u32,
    nodes: &mut u32,
    constants: &mut u32,
) -> u8
    ensures { Checks src.now
        (record_tables token_kinds.old token_starts.old token_lengths.old
        node_kinds.old node_tokens.old node_sizes.old node_bindings.old records.old room.old)
        (record_tables token_kinds.new token_starts.new token_lengths.new
        node_kinds.new node_tokens.new node_sizes.new node_bindings.new records.new room.new)
        (report_by result number.new tokens.new nodes.new constants.new) }
{
    let report = record_checker::check_records(
        src,
        token_kinds,
        token_starts,
        token_lengths,
        node_kinds,
        node_tokens,
        node_sizes,
        node_bindings,
        records,
        room,
    );
    put_report(report, number, tokens, nodes, constants)
}
