// The evaluation of one expression against a file: its own columns and the file's are apart, and the answers of the file's constants are known.
// The answer of each node is kept in a row of three lent columns, for its parent; of a string the length.
#![tactic(auto)]

ghost use Rattle.express.specs.Semantics.Evaluate.{answer_at};
ghost use Rattle.node_answers.specs.Answers.{Keeps, answers_in};
ghost use Rattle.evaluate.specs.Evaluation.{Named, Item, EvaluatesNode, EvaluatesNodes};

use node_answers::{answered, put_answer};
use operations::Answer;
use string_bytes::{Expression, Known, is_name};
use string_relations::{Values, compared, compares};
use tree::index_at;

// Copies row i of some columns to row n of others; past the end of the former stands the row of `?`.
fn copy_row(
    kinds: &[u8],
    numbers: &[i64],
    lengths: &[u8],
    i: usize,
    value_kinds: &mut [u8],
    value_numbers: &mut [i64],
    value_lengths: &mut [u8],
    n: usize,
)
    ensures { Keeps (answer_at (answers_in kinds.now numbers.now lengths.now) i) n
        value_kinds.old value_numbers.old value_lengths.old
        value_kinds.new value_numbers.new value_lengths.new }
{
    let rows = kinds.len().min(numbers.len().min(lengths.len()));
    if i >= rows {
        put_answer(
            value_kinds,
            value_numbers,
            value_lengths,
            n,
            Answer::Indeterminate,
        );
        return;
    }
    columns::put(value_kinds, n, kinds[i]);
    columns::put(value_numbers, n, numbers[i]);
    columns::put(value_lengths, n, lengths[i]);
}

// An item by its node; no other declaration but a constant has an answer.
fn item(kind: u8, d: u32) -> Answer
    ensures { Item kind d result }
{
    if kind == codes::nodes::ITEM {
        Answer::Item(d)
    } else {
        Answer::Indeterminate
    }
}

// Keeps the answer of a name, by what it is bound to: that of a constant is copied from its row.
fn store_named(
    binding: u32,
    known: &Known,
    value_kinds: &mut [u8],
    value_numbers: &mut [i64],
    value_lengths: &mut [u8],
    n: usize,
)
    ensures { Named binding known.now.file_kinds.now known.now.row_of.now known.now.first_row
        known.now.kinds.now known.now.numbers.now known.now.lengths.now
        value_kinds.old value_numbers.old value_lengths.old
        value_kinds.new value_numbers.new value_lengths.new n }
{
    if binding == 0 {
        put_answer(
            value_kinds,
            value_numbers,
            value_lengths,
            n,
            Answer::Indeterminate,
        );
        return;
    }
    let d = binding - 1;
    let kind = columns::get_or(known.file_kinds, columns::index(d), 0);
    if kind == codes::nodes::CONSTANT {
        let row = index_at(known.row_of, columns::index(d)).saturating_sub(known.first_row);
        copy_row(
            known.kinds,
            known.numbers,
            known.lengths,
            row,
            value_kinds,
            value_numbers,
            value_lengths,
            n,
        );
        return;
    }
    put_answer(value_kinds, value_numbers, value_lengths, n, item(kind, d));
}

// Keeps the answer of a node for its parent.
fn evaluate_node(
    expression: &Expression,
    declared: &[u32],
    known: &Known,
    value_kinds: &mut [u8],
    value_numbers: &mut [i64],
    value_lengths: &mut [u8],
    n: usize,
)
    ensures { EvaluatesNode expression.now.src.now expression.now.starts.now expression.now.lengths.now
        expression.now.terminals.now expression.now.kinds.now expression.now.tokens.now expression.now.sizes.now
        expression.now.bindings.now
        known.now.file_kinds.now declared.now known.now.row_of.now known.now.first_row
        known.now.kinds.now known.now.numbers.now known.now.lengths.now known.now.room.now
        value_kinds.old value_numbers.old value_lengths.old
        value_kinds.new value_numbers.new value_lengths.new n }
{
    let kind = columns::get_or(expression.kinds, n, 0);
    if is_name(kind) {
        store_named(
            columns::get_or(expression.bindings, n, 0),
            known,
            value_kinds,
            value_numbers,
            value_lengths,
            n,
        );
        return;
    }
    let answer = if compares(kind, expression, value_kinds, n) {
        let values = Values {
            kinds: value_kinds,
            numbers: value_numbers,
            lengths: value_lengths,
        };
        compared(kind, expression, known, &values, n)
    } else {
        answered(
            expression.src,
            expression.starts,
            expression.lengths,
            expression.terminals,
            expression.tokens,
            expression.sizes,
            declared,
            value_kinds,
            value_numbers,
            value_lengths,
            kind,
            n,
        )
    };
    put_answer(value_kinds, value_numbers, value_lengths, n, answer);
}

// Evaluates the nodes from lo up to hi, hi itself not, of an expression against a file; the answer of each is kept for its parent.
pub fn evaluate_expression(
    expression: &Expression,
    declared: &[u32],
    known: &Known,
    lo: usize,
    hi: usize,
    value_kinds: &mut [u8],
    value_numbers: &mut [i64],
    value_lengths: &mut [u8],
)
    ensures { EvaluatesNodes expression.now.src.now expression.now.starts.now expression.now.lengths.now
        expression.now.terminals.now expression.now.kinds.now expression.now.tokens.now expression.now.sizes.now
        expression.now.bindings.now lo hi
        known.now.file_kinds.now declared.now known.now.row_of.now known.now.first_row
        known.now.kinds.now known.now.numbers.now known.now.lengths.now known.now.room.now
        value_kinds.old value_numbers.old value_lengths.old
        value_kinds.new value_numbers.new value_lengths.new }
{
    for n in lo..hi {
        evaluate_node(
            expression,
            declared,
            known,
            value_kinds,
            value_numbers,
            value_lengths,
            n,
        );
    }
}
