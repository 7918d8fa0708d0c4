// The evaluation of the constants of a file into its answer columns, one schema after the other.
#![tactic(auto)]

ghost use Rattle.constants.specs.Constants.{PlacesConstants, FillsSchemas, EvaluatesConstants};

use constant_rows::number_rows;
use constant_rows::parts::{has_parts, next_part, part_end};
use schemas::{evaluate_schema, measure_constants};
use string_bytes::Expression;
use string_places::place_strings;
use tree::{index_at, next_of_kind};

// Each schema in the order of the text, into the answer columns from the row on where the schema before it ended. Its constants are looked for in its
// part of the order, or in all of it.
fn evaluate_schemas(
    file: &Expression,
    declared: &[u32],
    order: &[u32],
    row_of: &[u32],
    answer_kinds: &mut [u8],
    answer_numbers: &mut [i64],
    answer_lengths: &mut [u8],
    value_kinds: &mut [u8],
    value_numbers: &mut [i64],
    value_lengths: &mut [u8],
    room: &mut [u8],
)
    ensures { FillsSchemas file.now.src.now file.now.starts.now file.now.lengths.now file.now.terminals.now file.now.kinds.now
        file.now.tokens.now file.now.sizes.now file.now.bindings.now declared.now order.now row_of.now
        answer_kinds.old answer_numbers.old answer_lengths.old
        value_kinds.old value_numbers.old value_lengths.old room.old
        answer_kinds.new answer_numbers.new answer_lengths.new room.new }
{
    let mut n = next_of_kind(file.kinds, codes::nodes::SCHEMA, 0);
    let are_parted = has_parts(file.kinds, order, n + 1);
    let mut lo: usize = 0;
    let mut at: usize = 0;
    let mut from: usize = 0;
    while n < file.kinds.len() {
        let next = next_part(are_parted, order, from, n);
        let to = part_end(are_parted, next, order.len());
        let a = at.min(answer_kinds.len());
        let b = at.min(answer_numbers.len());
        let c = at.min(answer_lengths.len());
        evaluate_schema(
            file,
            declared,
            &order[from..to],
            row_of,
            lo,
            n,
            at,
            &mut answer_kinds[a..],
            &mut answer_numbers[b..],
            &mut answer_lengths[c..],
            value_kinds,
            value_numbers,
            value_lengths,
            room,
        );
        at = index_at(row_of, n);
        lo = n + 1;
        from = next;
        n = next_of_kind(file.kinds, codes::nodes::SCHEMA, lo);
    }
}

// THE STARTS OF THE STRINGS of a file: its constants of type STRING are measured, and each placed where those before it end; how many bytes they take.
fn place_constants(
    file: &Expression,
    declared: &[u32],
    order: &[u32],
    row_of: &[u32],
    answer_kinds: &mut [u8],
    answer_numbers: &mut [i64],
    answer_lengths: &mut [u8],
    value_kinds: &mut [u8],
    value_numbers: &mut [i64],
    value_lengths: &mut [u8],
) -> usize
    ensures { PlacesConstants file.now.src.now file.now.starts.now file.now.lengths.now file.now.terminals.now file.now.kinds.now
        file.now.tokens.now file.now.sizes.now file.now.bindings.now declared.now order.now row_of.now
        answer_kinds.old answer_numbers.old answer_lengths.old
        value_kinds.old value_numbers.old value_lengths.old
        answer_kinds.new answer_numbers.new answer_lengths.new result }
{
    measure_constants(
        file,
        declared,
        order,
        row_of,
        answer_kinds,
        answer_numbers,
        answer_lengths,
        value_kinds,
        value_numbers,
        value_lengths,
    );
    let rows = index_at(row_of, tree::last(file.kinds.len())).min(answer_kinds.len());
    place_strings(answer_kinds, answer_numbers, answer_lengths, rows)
}

// THE ANSWERS OF A FILE: its rows are numbered by node, its strings placed, and where the room has so many bytes its constants evaluated, each schema by
// itself; how many bytes its strings take.
pub fn evaluate_constants(
    src: &[u8],
    starts: &[u32],
    lengths: &[u32],
    terminals: &[u8],
    kinds: &[u8],
    tokens: &[u32],
    sizes: &[u32],
    bindings: &[u32],
    declared: &[u32],
    order: &[u32],
    row_of: &mut [u32],
    answer_kinds: &mut [u8],
    answer_numbers: &mut [i64],
    answer_lengths: &mut [u8],
    value_kinds: &mut [u8],
    value_numbers: &mut [i64],
    value_lengths: &mut [u8],
    room: &mut [u8],
) -> usize
    ensures { EvaluatesConstants src.now starts.now lengths.now terminals.now kinds.now
        tokens.now sizes.now bindings.now declared.now order.now row_of.old
        answer_kinds.old answer_numbers.old answer_lengths.old
        value_kinds.old value_numbers.old value_lengths.old room.old
        row_of.new answer_kinds.new answer_numbers.new answer_lengths.new room.new result }
{
    let file = Expression {
        src,
        starts,
        lengths,
        terminals,
        kinds,
        tokens,
        sizes,
        bindings,
    };
    number_rows(kinds, row_of);
    let needed = place_constants(
        &file,
        declared,
        order,
        row_of,
        answer_kinds,
        answer_numbers,
        answer_lengths,
        value_kinds,
        value_numbers,
        value_lengths,
    );
    if needed > room.len() {
        return needed;
    }
    columns::clear(room, needed, 0);
    evaluate_schemas(
        &file,
        declared,
        order,
        row_of,
        answer_kinds,
        answer_numbers,
        answer_lengths,
        value_kinds,
        value_numbers,
        value_lengths,
        room,
    );
    needed
}
