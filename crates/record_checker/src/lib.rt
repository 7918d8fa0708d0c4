// The public call beside `check`: the answers go into a lent slice of records (R11).
#![tactic(auto)]

ghost use Rattle.std.specs.Prelude.{◌+◌, ◌*◌, ◌<◌, ◌≤◌};
ghost use Rattle.demands.specs.Checks.{Checks, tables_of};
ghost use Rattle.reports.specs.Reporting.{report_of};
ghost use Rattle.express.specs.Tokens.Lexis.{most};
ghost use Rattle.record_demands.specs.Records.{record_tables, ChecksRows, RecordsWithin};

use checker::check;
use reading::{LARGE, MIDDLE, SMALL};
use records::{Answer, fill};
use reports::Report;

// A file has a constant for each six tokens at most.
const SMALL_ROWS: usize = SMALL / 6;

const MIDDLE_ROWS: usize = MIDDLE / 6;

const LARGE_ROWS: usize = LARGE / 6;

// The call on the first rows of the answer columns.
fn check_rows(
    src: &[u8],
    token_kinds: &mut [u8],
    token_starts: &mut [u32],
    token_lengths: &mut [u32],
    node_kinds: &mut [u8],
    node_tokens: &mut [u32],
    node_sizes: &mut [u32],
    node_bindings: &mut [u32],
    answer_kinds: &mut [u8],
    answer_numbers: &mut [i64],
    answer_lengths: &mut [u8],
    room: &mut [u8],
    rows: usize,
) -> Report
    ensures { ChecksRows src.now
        (tables_of token_kinds.old token_starts.old token_lengths.old
        node_kinds.old node_tokens.old node_sizes.old node_bindings.old
        answer_kinds.old answer_numbers.old answer_lengths.old room.old)
        (tables_of token_kinds.new token_starts.new token_lengths.new
        node_kinds.new node_tokens.new node_sizes.new node_bindings.new
        answer_kinds.new answer_numbers.new answer_lengths.new room.new) rows (report_of result) }
{
    let a = rows.min(answer_kinds.len());
    let b = rows.min(answer_numbers.len());
    let c = rows.min(answer_lengths.len());
    check(
        src,
        token_kinds,
        token_starts,
        token_lengths,
        node_kinds,
        node_tokens,
        node_sizes,
        node_bindings,
        &mut answer_kinds[..a],
        &mut answer_numbers[..b],
        &mut answer_lengths[..c],
        room,
    )
}

// The call with columns of its own, for files of at most BYTES tokens. Never put into its caller, so that a small file is in no frame with the largest columns.
#[inline(never)]
fn records_within<const BYTES: usize, const ROWS: usize>(
    src: &[u8],
    token_kinds: &mut [u8],
    token_starts: &mut [u32],
    token_lengths: &mut [u32],
    node_kinds: &mut [u8],
    node_tokens: &mut [u32],
    node_sizes: &mut [u32],
    node_bindings: &mut [u32],
    records: &mut [Answer],
    room: &mut [u8],
) -> Report
    requires few { ROWS ≤ most }
    requires many { BYTES < 6 * ROWS + 6 }
    ensures { RecordsWithin BYTES src.now
        (record_tables token_kinds.old token_starts.old token_lengths.old
        node_kinds.old node_tokens.old node_sizes.old node_bindings.old records.old room.old)
        (record_tables token_kinds.new token_starts.new token_lengths.new
        node_kinds.new node_tokens.new node_sizes.new node_bindings.new records.new room.new) (report_of result) }
{
    let mut kinds = [0u8; ROWS];
    let mut numbers = [0i64; ROWS];
    let mut lengths = [0u8; ROWS];
    let report = check_rows(
        src,
        token_kinds,
        token_starts,
        token_lengths,
        node_kinds,
        node_tokens,
        node_sizes,
        node_bindings,
        &mut kinds,
        &mut numbers,
        &mut lengths,
        room,
        records.len(),
    );
    fill(
        &kinds,
        &numbers,
        &lengths,
        report.constants as usize,
        records,
    );
    report
}

// THE CALL WITH RECORDS, with columns of its own by the number of bytes, so that a small file clears little.
pub fn check_records(
    src: &[u8],
    token_kinds: &mut [u8],
    token_starts: &mut [u32],
    token_lengths: &mut [u32],
    node_kinds: &mut [u8],
    node_tokens: &mut [u32],
    node_sizes: &mut [u32],
    node_bindings: &mut [u32],
    records: &mut [Answer],
    room: &mut [u8],
) -> Report
    ensures { Checks src.now
        (record_tables token_kinds.old token_starts.old token_lengths.old
        node_kinds.old node_tokens.old node_sizes.old node_bindings.old records.old room.old)
        (record_tables token_kinds.new token_starts.new token_lengths.new
        node_kinds.new node_tokens.new node_sizes.new node_bindings.new records.new room.new) (report_of result) }
{
    if src.len() <= SMALL {
        return records_within::<SMALL, SMALL_ROWS>(
            src,
            token_kinds,
            token_starts,
            token_lengths,
            node_kinds,
            node_tokens,
            node_sizes,
            node_bindings,
            records,
            room,
        );
    }
    if src.len() <= MIDDLE {
        return records_within::<MIDDLE, MIDDLE_ROWS>(
            src,
            token_kinds,
            token_starts,
            token_lengths,
            node_kinds,
            node_tokens,
            node_sizes,
            node_bindings,
            records,
            room,
        );
    }
    records_within::<LARGE, LARGE_ROWS>(
        src,
        token_kinds,
        token_starts,
        token_lengths,
        node_kinds,
        node_tokens,
        node_sizes,
        node_bindings,
        records,
        room,
    )
}
