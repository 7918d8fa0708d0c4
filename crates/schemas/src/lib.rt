// The evaluation of the constants of one schema into the answer columns and the room. First the lengths of strings are measured; when their places are known,
// strings are written and the other constants evaluated.
#![tactic(auto)]

ghost use Rattle.std.specs.Prelude.{◌≡◌};
ghost use Rattle.schemas.specs.Rows.{due, EvaluatesConstant, MeasuresConstant, MeasuresConstants, WritesString, FillsConstant, FillsSchema};

use evaluate::evaluate_expression;
use node_answers::{held_answer, put_answer};
use operations::Answer;
use string_bytes::{Expression, Known, copy_bytes, spell, start_at};
use tree::index_at;

// Is a node a constant from lo up to hi?
fn is_due(kinds: &[u8], lo: usize, hi: usize, d: usize) -> bool
    ensures { result ≡ due kinds.now lo hi d }
{
    lo <= d && d < hi && columns::get_or(kinds, d, 0) == codes::nodes::CONSTANT
}

// The nodes of a constant that are not of its expression: its own and, before the expression, that of its type, which has no answer.
const BESIDES: usize = 2;

// Evaluates one constant into its row, of columns that start with row `at`: the nodes of its expression, and what it holds of their answer.
fn evaluate_constant(
    file: &Expression,
    declared: &[u32],
    row_of: &[u32],
    d: usize,
    at: usize,
    answer_kinds: &mut [u8],
    answer_numbers: &mut [i64],
    answer_lengths: &mut [u8],
    value_kinds: &mut [u8],
    value_numbers: &mut [i64],
    value_lengths: &mut [u8],
    room: &[u8],
)
    ensures { EvaluatesConstant file.now.src.now file.now.starts.now file.now.lengths.now file.now.terminals.now file.now.kinds.now
        file.now.tokens.now file.now.sizes.now file.now.bindings.now declared.now row_of.now d at answer_kinds.old
        answer_numbers.old answer_lengths.old value_kinds.old value_numbers.old
        value_lengths.old room.now answer_kinds.new answer_numbers.new answer_lengths.new }
{
    let nodes = index_at(file.sizes, d).saturating_sub(BESIDES);
    let first = d.saturating_sub(nodes);
    let known = Known {
        file_kinds: file.kinds,
        row_of,
        first_row: at,
        kinds: answer_kinds,
        numbers: answer_numbers,
        lengths: answer_lengths,
        room,
    };
    evaluate_expression(
        file,
        declared,
        &known,
        first,
        d,
        value_kinds,
        value_numbers,
        value_lengths,
    );
    let row = index_at(row_of, d).saturating_sub(at);
    let answer = held_answer(
        columns::get_or(declared, d, 0),
        value_kinds,
        value_numbers,
        value_lengths,
        d,
    );
    put_answer(answer_kinds, answer_numbers, answer_lengths, row, answer);
}

// Measures one constant: a string is evaluated, and its row tells the length; every other constant waits. No strings are compared in the expression of a
// string, so no room is read: any bytes do.
fn measure_constant(
    file: &Expression,
    declared: &[u32],
    row_of: &[u32],
    d: usize,
    at: usize,
    answer_kinds: &mut [u8],
    answer_numbers: &mut [i64],
    answer_lengths: &mut [u8],
    value_kinds: &mut [u8],
    value_numbers: &mut [i64],
    value_lengths: &mut [u8],
)
    ensures { MeasuresConstant file.now.src.now file.now.starts.now file.now.lengths.now file.now.terminals.now file.now.kinds.now
        file.now.tokens.now file.now.sizes.now file.now.bindings.now declared.now row_of.now d at answer_kinds.old
        answer_numbers.old answer_lengths.old value_kinds.old value_numbers.old
        value_lengths.old answer_kinds.new answer_numbers.new answer_lengths.new }
{
    if columns::get_or(declared, d, 0) == codes::types::STRING {
        evaluate_constant(
            file,
            declared,
            row_of,
            d,
            at,
            answer_kinds,
            answer_numbers,
            answer_lengths,
            value_kinds,
            value_numbers,
            value_lengths,
            file.src,
        );
        return;
    }
    let row = index_at(row_of, d).saturating_sub(at);
    put_answer(
        answer_kinds,
        answer_numbers,
        answer_lengths,
        row,
        Answer::Indeterminate,
    );
}

// Measures the constants of a file, as they stand in an order.
pub fn measure_constants(
    file: &Expression,
    declared: &[u32],
    order: &[u32],
    row_of: &[u32],
    answer_kinds: &mut [u8],
    answer_numbers: &mut [i64],
    answer_lengths: &mut [u8],
    value_kinds: &mut [u8],
    value_numbers: &mut [i64],
    value_lengths: &mut [u8],
)
    ensures { MeasuresConstants file.now.src.now file.now.starts.now file.now.lengths.now file.now.terminals.now file.now.kinds.now
        file.now.tokens.now file.now.sizes.now file.now.bindings.now declared.now order.now row_of.now
        answer_kinds.old answer_numbers.old answer_lengths.old value_kinds.old
        value_numbers.old value_lengths.old answer_kinds.new answer_numbers.new answer_lengths.new }
{
    for declaration in order {
        let d = columns::index(*declaration);
        if is_due(file.kinds, 0, file.kinds.len(), d) {
            measure_constant(
                file,
                declared,
                row_of,
                d,
                0,
                answer_kinds,
                answer_numbers,
                answer_lengths,
                value_kinds,
                value_numbers,
                value_lengths,
            );
        }
    }
}

// Writes the string of a constant into the room, where its row says; a constant that came to no string has none.
fn write_string(
    file: &Expression,
    row_of: &[u32],
    d: usize,
    at: usize,
    answer_kinds: &[u8],
    answer_numbers: &[i64],
    answer_lengths: &[u8],
    room: &mut [u8],
)
    ensures { WritesString file.now.src.now file.now.starts.now file.now.lengths.now file.now.terminals.now file.now.kinds.now
        file.now.tokens.now file.now.sizes.now file.now.bindings.now row_of.now d at answer_kinds.now
        answer_numbers.now answer_lengths.now room.old room.new }
{
    let row = index_at(row_of, d).saturating_sub(at);
    if columns::get_or(answer_kinds, row, 0) == codes::answers::STRING {
        let mut bytes = [0u8; codes::limits::STRING_BYTES];
        let nodes = index_at(file.sizes, d).saturating_sub(BESIDES);
        let first = d.saturating_sub(nodes);
        let known = Known {
            file_kinds: file.kinds,
            row_of,
            first_row: at,
            kinds: answer_kinds,
            numbers: answer_numbers,
            lengths: answer_lengths,
            room,
        };
        let size = spell(file, &known, first, d, &mut bytes);
        copy_bytes(&bytes, 0, size, room, start_at(answer_numbers, row));
    }
}

// Writes the string of one constant, or evaluates it into its row.
fn fill_constant(
    file: &Expression,
    declared: &[u32],
    row_of: &[u32],
    d: usize,
    at: usize,
    answer_kinds: &mut [u8],
    answer_numbers: &mut [i64],
    answer_lengths: &mut [u8],
    value_kinds: &mut [u8],
    value_numbers: &mut [i64],
    value_lengths: &mut [u8],
    room: &mut [u8],
)
    ensures { FillsConstant file.now.src.now file.now.starts.now file.now.lengths.now file.now.terminals.now file.now.kinds.now
        file.now.tokens.now file.now.sizes.now file.now.bindings.now declared.now row_of.now d at answer_kinds.old
        answer_numbers.old answer_lengths.old value_kinds.old value_numbers.old
        value_lengths.old room.old answer_kinds.new answer_numbers.new answer_lengths.new
        room.new }
{
    if columns::get_or(declared, d, 0) == codes::types::STRING {
        write_string(
            file,
            row_of,
            d,
            at,
            answer_kinds,
            answer_numbers,
            answer_lengths,
            room,
        );
        return;
    }
    evaluate_constant(
        file,
        declared,
        row_of,
        d,
        at,
        answer_kinds,
        answer_numbers,
        answer_lengths,
        value_kinds,
        value_numbers,
        value_lengths,
        room,
    );
}

// Fills the rows of the constants from node lo up to hi, which are those of a schema, as they stand in a part of the order: in the part of the answer columns
// from row `at` on.
pub fn evaluate_schema(
    file: &Expression,
    declared: &[u32],
    part: &[u32],
    row_of: &[u32],
    lo: usize,
    hi: usize,
    at: usize,
    answer_kinds: &mut [u8],
    answer_numbers: &mut [i64],
    answer_lengths: &mut [u8],
    value_kinds: &mut [u8],
    value_numbers: &mut [i64],
    value_lengths: &mut [u8],
    room: &mut [u8],
)
    ensures { FillsSchema file.now.src.now file.now.starts.now file.now.lengths.now file.now.terminals.now file.now.kinds.now
        file.now.tokens.now file.now.sizes.now file.now.bindings.now declared.now part.now row_of.now lo hi at
        answer_kinds.old answer_numbers.old answer_lengths.old value_kinds.old
        value_numbers.old value_lengths.old room.old answer_kinds.new answer_numbers.new
        answer_lengths.new room.new }
{
    for declaration in part {
        let d = columns::index(*declaration);
        if is_due(file.kinds, lo, hi, d) {
            fill_constant(
                file,
                declared,
                row_of,
                d,
                at,
                answer_kinds,
                answer_numbers,
                answer_lengths,
                value_kinds,
                value_numbers,
                value_lengths,
                room,
            );
        }
    }
}
