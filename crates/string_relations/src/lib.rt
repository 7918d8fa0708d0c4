// Relations and intervals of strings: while nodes are evaluated a string is its length, and where two are compared their bytes are those of their leaves.
#![tactic(auto)]

ghost use Rattle.std.specs.Prelude.{◌≡◌, ◌&&◌, get_or};
ghost use Rattle.string_relations.specs.Comparing.{SpellsNode, OrdersNodes, Relates, is_text, is_relation, Compares};
ghost use Rattle.string_relations.specs.Compared.{RelatesOperands, ComparesItem, Compared};

use combinations::combined;
use node_answers::answer_at;
use node_answers::operators::{bound, operator};
use operations::{Answer, Connective, Operator};
use std::cmp::Ordering;
use string_bytes::{Expression, Known, spell};
use tree::{index_at, last, left, low, lower, middle};
use values::order::Relation;

// The answers of nodes that are kept, in rows of three columns.
#[derive(Clone, Copy)]
pub struct Values<'a> {
    pub kinds: &'a [u8],
    pub numbers: &'a [i64],
    pub lengths: &'a [u8],
}

// The bytes of the leaves of a node, as far as there are places; how many of them are filled.
fn spell_node(expression: &Expression, known: &Known, a: usize, out: &mut [u8]) -> usize
    ensures { SpellsNode expression.now.src.now expression.now.starts.now expression.now.lengths.now
        expression.now.terminals.now expression.now.kinds.now expression.now.tokens.now expression.now.sizes.now
        expression.now.bindings.now
        known.now.file_kinds.now known.now.row_of.now known.now.first_row
        known.now.kinds.now known.now.numbers.now known.now.lengths.now known.now.room.now a out.old out.new result }
{
    if a >= expression.kinds.len() {
        return 0;
    }
    let end = a + 1;
    let first = end.saturating_sub(index_at(expression.sizes, a));
    spell(expression, known, first, end, out)
}

// The order of the strings of two nodes.
fn compare_nodes(expression: &Expression, known: &Known, a: usize, b: usize) -> Ordering
    ensures { OrdersNodes expression.now.src.now expression.now.starts.now expression.now.lengths.now
        expression.now.terminals.now expression.now.kinds.now expression.now.tokens.now expression.now.sizes.now
        expression.now.bindings.now
        known.now.file_kinds.now known.now.row_of.now known.now.first_row
        known.now.kinds.now known.now.numbers.now known.now.lengths.now known.now.room.now a b result }
{
    let mut first = [0u8; codes::limits::STRING_BYTES];
    let mut second = [0u8; codes::limits::STRING_BYTES];
    let m = spell_node(expression, known, a, &mut first);
    let n = spell_node(expression, known, b, &mut second);
    strings::compare(&first[..m], &second[..n])
}

fn is_text(x: Answer) -> bool
    ensures { result ≡ is_text x }
{
    matches!(x, Answer::Text(_))
}

fn are_texts(x: Answer, y: Answer) -> bool
    ensures { result ≡ (is_text x && is_text y) }
{
    is_text(x) && is_text(y)
}

// A relation of two nodes: of strings by their bytes, else by the answers that are kept.
fn relation(
    o: Relation,
    expression: &Expression,
    known: &Known,
    values: &Values,
    a: usize,
    b: usize,
) -> Answer
    ensures { Relates expression.now.src.now expression.now.starts.now expression.now.lengths.now
        expression.now.terminals.now expression.now.kinds.now expression.now.tokens.now expression.now.sizes.now
        expression.now.bindings.now
        known.now.file_kinds.now known.now.row_of.now known.now.first_row
        known.now.kinds.now known.now.numbers.now known.now.lengths.now known.now.room.now o values.now.kinds.now
        values.now.numbers.now values.now.lengths.now a b result }
{
    let x = answer_at(values.kinds, values.numbers, values.lengths, a);
    let y = answer_at(values.kinds, values.numbers, values.lengths, b);
    if are_texts(x, y) {
        let order = compare_nodes(expression, known, a, b);
        return Answer::Logical(o.holds(order));
    }
    combined(Operator::Relation(o), x, y)
}

// The terminal of a node.
fn terminal(expression: &Expression, n: usize) -> u8
    ensures { result ≡ get_or expression.now.terminals.now (get_or expression.now.tokens.now n 0) 0 }
{
    columns::get_or(expression.terminals, index_at(expression.tokens, n), 0)
}

fn is_relation(terminal: u8) -> bool
    ensures { result ≡ is_relation terminal }
{
    matches!(operator(terminal), Some(Operator::Relation(_)))
}

// May a node compare strings? A relation whose right operand is a string, or an interval whose item is one.
pub fn compares(kind: u8, expression: &Expression, value_kinds: &[u8], n: usize) -> bool
    ensures { Compares kind expression.now.terminals.now expression.now.tokens.now expression.now.sizes.now value_kinds.now n result }
{
    match kind {
        codes::nodes::TWO_OPERAND => {
            columns::get_or(value_kinds, last(n), 0) == codes::answers::STRING
                && is_relation(terminal(expression, n))
        }
        codes::nodes::INTERVAL => {
            columns::get_or(value_kinds, middle(expression.sizes, n), 0) == codes::answers::STRING
        }
        _ => false,
    }
}

// Both relations of an interval, joined by AND.
fn compare_item(expression: &Expression, known: &Known, values: &Values, n: usize) -> Answer
    ensures { ComparesItem expression.now.src.now expression.now.starts.now expression.now.lengths.now
        expression.now.terminals.now expression.now.kinds.now expression.now.tokens.now expression.now.sizes.now
        expression.now.bindings.now
        known.now.file_kinds.now known.now.row_of.now known.now.first_row
        known.now.kinds.now known.now.numbers.now known.now.lengths.now known.now.room.now values.now.kinds.now
        values.now.numbers.now values.now.lengths.now n result }
{
    let lower_relation = bound(terminal(expression, lower(expression.sizes, n)));
    let upper_relation = bound(terminal(expression, left(expression.sizes, n)));
    let item = middle(expression.sizes, n);
    let low_side = low(expression.sizes, n);
    let first = relation(lower_relation, expression, known, values, low_side, item);
    let second = relation(upper_relation, expression, known, values, item, last(n));
    combined(Operator::Connective(Connective::And), first, second)
}

// The relation that a node is.
fn relate_operands(expression: &Expression, known: &Known, values: &Values, n: usize) -> Answer
    ensures { RelatesOperands expression.now.src.now expression.now.starts.now expression.now.lengths.now
        expression.now.terminals.now expression.now.kinds.now expression.now.tokens.now expression.now.sizes.now
        expression.now.bindings.now
        known.now.file_kinds.now known.now.row_of.now known.now.first_row
        known.now.kinds.now known.now.numbers.now known.now.lengths.now known.now.room.now values.now.kinds.now
        values.now.numbers.now values.now.lengths.now n result }
{
    match operator(terminal(expression, n)) {
        Some(Operator::Relation(o)) => {
            relation(
                o,
                expression,
                known,
                values,
                left(expression.sizes, n),
                last(n),
            )
        }
        _ => Answer::Indeterminate,
    }
}

// The answer of a node that may compare strings.
pub fn compared(
    kind: u8,
    expression: &Expression,
    known: &Known,
    values: &Values,
    n: usize,
) -> Answer
    ensures { Compared expression.now.src.now expression.now.starts.now expression.now.lengths.now
        expression.now.terminals.now expression.now.kinds.now expression.now.tokens.now expression.now.sizes.now
        expression.now.bindings.now
        known.now.file_kinds.now known.now.row_of.now known.now.first_row
        known.now.kinds.now known.now.numbers.now known.now.lengths.now known.now.room.now values.now.kinds.now
        values.now.numbers.now values.now.lengths.now kind n result }
{
    if kind == codes::nodes::INTERVAL {
        compare_item(expression, known, values, n)
    } else {
        relate_operands(expression, known, values, n)
    }
}
