// The answer of one node of an expression, from those of its operands, which are kept in the rows of three columns.
#![tactic(auto)]

pub mod operators;

ghost use Rattle.std.specs.Prelude.{◌≡◌, ◌&&◌, ◌||◌, eqb, get_or};
ghost use Rattle.express.specs.Tokens.Terminal.{the};
ghost use Rattle.express.specs.Tokens.Terminal as word;
ghost use Rattle.express.specs.Syntax.NodeKind as node;
ghost use Rattle.express.specs.Semantics.Evaluate.{answer_at};
ghost use Rattle.operations.specs.Meaning.{answer_of};
ghost use Rattle.answer_rows.specs.Stored.{stored};
ghost use Rattle.node_answers.specs.Answers.{Gives, Stores, answers_in};
ghost use Rattle.node_answers.specs.NodeAnswer.{part, IntegerRead, BinaryRead, StringRead, Leaf, Combines, Intervals, Operates, HeldIn, Others, Answered};

use crate::operators::{bound, logical, operator, sign};
use answer_rows::{answer_of_row, row_of};
use bits::Binary;
use columns::get_or;
use combinations::{applied, between, combined, held};
use operations::Answer;
use tree::{index_at, last, left, low, lower, middle};

// The answer that is kept in a row, and `?` past the end of the columns.
pub fn answer_at(kinds: &[u8], numbers: &[i64], lengths: &[u8], i: usize) -> Answer
    ensures { Gives result (answer_at (answers_in kinds.now numbers.now lengths.now) i) }
{
    if i < kinds.len() && i < numbers.len() && i < lengths.len() {
        return answer_of_row(kinds[i], numbers[i], lengths[i]);
    }
    Answer::Indeterminate
}

// Keeps an answer in a row.
pub fn put_answer(kinds: &mut [u8], numbers: &mut [i64], lengths: &mut [u8], i: usize, a: Answer)
    ensures { Stores (stored (answer_of a)) i kinds.old numbers.old lengths.old kinds.new numbers.new lengths.new }
{
    let row = row_of(a);
    columns::put(kinds, i, row.kind);
    columns::put(numbers, i, row.number);
    columns::put(lengths, i, row.length);
}

// The terminal of a node's naming token.
fn terminal_at(terminals: &[u8], tokens: &[u32], n: usize) -> u8
    ensures { result ≡ get_or terminals.now (get_or tokens.now n 0) 0 }
{
    get_or(terminals, index_at(tokens, n), 0)
}

// An integer literal; what no integer of the language reaches is `?`.
fn integer(src: &[u8], start: usize, length: usize) -> Answer
    ensures { IntegerRead (part src.now start length) result }
{
    let v = literals::integer(src, start, length);
    if v > codes::limits::INTEGER {
        return Answer::Indeterminate;
    }
    Answer::Integer(v as i64)
}

// A binary literal, its `%` passed over; one of more bits than the language allows is `?`.
fn binary(src: &[u8], start: usize, length: usize) -> Answer
    ensures { BinaryRead (part src.now start length) result }
{
    let bytes = length.min(src.len().saturating_sub(start));
    let bits = bytes.saturating_sub(1);
    if bits > codes::limits::BITS {
        return Answer::Indeterminate;
    }
    Answer::Binary(Binary {
        number: literals::binary(src, start, length),
        length: bits as u8,
    })
}

// A string literal by its length; one of more bytes than the language allows is `?`.
fn string(src: &[u8], start: usize, length: usize) -> Answer
    ensures { StringRead (part src.now start length) result }
{
    let n = literals::string_length(src, start, length);
    if n > codes::limits::STRING_BYTES {
        return Answer::Indeterminate;
    }
    Answer::Text(n as u8)
}

// Of the literals that have a kind in common strings alone are evaluated.
fn is_string(kind: u8, terminal: u8) -> bool
    ensures { result ≡ (eqb kind node.other_literal && eqb terminal (the word.string)) }
{
    kind == codes::nodes::OTHER && terminal == codes::STRING_LITERAL
}

// A literal; every other leaf is `?`.
fn leaf(kind: u8, terminal: u8, src: &[u8], start: usize, length: usize) -> Answer
    ensures { Leaf kind terminal (part src.now start length) result }
{
    if kind == codes::nodes::INTEGER {
        return integer(src, start, length);
    }
    if kind == codes::nodes::BINARY {
        return binary(src, start, length);
    }
    if kind == codes::nodes::LOGICAL {
        return Answer::Logical(logical(terminal));
    }
    if is_string(kind, terminal) {
        return string(src, start, length);
    }
    Answer::Indeterminate
}

// Two operands; `/` is not evaluated.
fn two_operands(terminal: u8, x: Answer, y: Answer) -> Answer
    ensures { Combines terminal x y result }
{
    match operator(terminal) {
        Some(o) => combined(o, x, y),
        None => Answer::Indeterminate,
    }
}

// An interval, with the item in both of its relations.
fn interval(
    terminals: &[u8],
    tokens: &[u32],
    sizes: &[u32],
    value_kinds: &[u8],
    value_numbers: &[i64],
    value_lengths: &[u8],
    n: usize,
) -> Answer
    ensures { Intervals terminals.now tokens.now sizes.now value_kinds.now value_numbers.now value_lengths.now n result }
{
    let first = answer_at(value_kinds, value_numbers, value_lengths, low(sizes, n));
    let item = answer_at(value_kinds, value_numbers, value_lengths, middle(sizes, n));
    let second = answer_at(value_kinds, value_numbers, value_lengths, last(n));
    let lower_relation = bound(terminal_at(terminals, tokens, lower(sizes, n)));
    let upper_relation = bound(terminal_at(terminals, tokens, left(sizes, n)));
    between(lower_relation, upper_relation, first, item, second)
}

// An operation, from the answers of its operands.
fn operation(
    kind: u8,
    terminals: &[u8],
    tokens: &[u32],
    sizes: &[u32],
    value_kinds: &[u8],
    value_numbers: &[i64],
    value_lengths: &[u8],
    n: usize,
) -> Answer
    ensures { Operates kind terminals.now tokens.now sizes.now
        value_kinds.now value_numbers.now value_lengths.now n result }
{
    if kind == codes::nodes::INTERVAL {
        return interval(
            terminals,
            tokens,
            sizes,
            value_kinds,
            value_numbers,
            value_lengths,
            n,
        );
    }
    let value = answer_at(value_kinds, value_numbers, value_lengths, last(n));
    let terminal = terminal_at(terminals, tokens, n);
    if kind == codes::nodes::UNARY {
        return applied(sign(terminal), value);
    }
    if kind == codes::nodes::TWO_OPERAND {
        let first = answer_at(value_kinds, value_numbers, value_lengths, left(sizes, n));
        return two_operands(terminal, first, value);
    }
    Answer::Indeterminate
}

// What a constant holds, by the number of its declared type: from the answer of its expression, whose last node stands just before it.
pub fn held_answer(
    declared: u32,
    kinds: &[u8],
    numbers: &[i64],
    lengths: &[u8],
    constant: usize,
) -> Answer
    ensures { HeldIn declared kinds.now numbers.now lengths.now constant result }
{
    held(
        declared == codes::types::BOOLEAN,
        answer_at(kinds, numbers, lengths, last(constant)),
    )
}

// What is not an operation: literals, and a constant from the answer of its expression.
fn other(
    kind: u8,
    src: &[u8],
    starts: &[u32],
    lengths: &[u32],
    terminals: &[u8],
    token: usize,
    declared: u32,
    value_kinds: &[u8],
    value_numbers: &[i64],
    value_lengths: &[u8],
    n: usize,
) -> Answer
    ensures { Others kind src.now starts.now lengths.now terminals.now token declared
        value_kinds.now value_numbers.now value_lengths.now n result }
{
    if kind == codes::nodes::CONSTANT {
        return held_answer(declared, value_kinds, value_numbers, value_lengths, n);
    }
    // The kinds of literals are the first; of any other node no token is read.
    if kind > codes::nodes::OTHER {
        return Answer::Indeterminate;
    }
    leaf(
        kind,
        get_or(terminals, token, 0),
        src,
        index_at(starts, token),
        index_at(lengths, token),
    )
}

fn is_operation(kind: u8) -> bool
    ensures { result ≡ (eqb kind node.unary || (eqb kind node.two_operand || eqb kind node.interval)) }
{
    matches!(
        kind,
        codes::nodes::UNARY | codes::nodes::TWO_OPERAND | codes::nodes::INTERVAL
    )
}

// The answer of a node that is no name.
pub fn answered(
    src: &[u8],
    starts: &[u32],
    lengths: &[u32],
    terminals: &[u8],
    tokens: &[u32],
    sizes: &[u32],
    declared: &[u32],
    value_kinds: &[u8],
    value_numbers: &[i64],
    value_lengths: &[u8],
    kind: u8,
    n: usize,
) -> Answer
    ensures { Answered src.now starts.now lengths.now terminals.now tokens.now sizes.now
        declared.now value_kinds.now value_numbers.now value_lengths.now kind n result }
{
    if is_operation(kind) {
        return operation(
            kind,
            terminals,
            tokens,
            sizes,
            value_kinds,
            value_numbers,
            value_lengths,
            n,
        );
    }
    other(
        kind,
        src,
        starts,
        lengths,
        terminals,
        index_at(tokens, n),
        get_or(declared, n, 0),
        value_kinds,
        value_numbers,
        value_lengths,
        n,
    )
}
