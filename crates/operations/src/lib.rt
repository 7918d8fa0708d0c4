// What operators make of the answers of their operands where none is an end.
#![tactic(auto)]

ghost use Rattle.std.specs.Prelude.{◌≡◌};
ghost use Rattle.express.specs.Semantics.Operate.{computed, combined_logicals, compared, counted, operated};
ghost use Rattle.express.specs.Semantics.Shape.{plus, arithmetic, relation};
ghost use Rattle.values.specs.Meaning.{logical_of, relation_of};
ghost use Rattle.integers.specs.Meaning.{integer_answer};
ghost use Rattle.operations.specs.Meaning.{answer_of, arithmetic_of, connective_of, comparison_of};

use bits::Binary;
use std::cmp::Ordering;
use values::End;
use values::logical::Logical;
use values::order::Relation;

// What an expression comes to: an item by its node; of a string the length alone is told.
#[derive(Clone, Copy)]
pub enum Answer {
    Indeterminate,
    Integer(i64),
    Logical(Logical),
    Binary(Binary),
    Item(u32),
    Text(u8),
    Ended(End),
}

// The operators that take integers alone.
#[derive(Clone, Copy)]
pub enum Arithmetic {
    Minus,
    Times,
    Divide,
    Modulo,
    Power,
}

// The operators that take logicals.
#[derive(Clone, Copy)]
pub enum Connective {
    And,
    Or,
    Xor,
}

// The operators of two operands. `+` adds integers and joins binaries and strings.
#[derive(Clone, Copy)]
pub enum Operator {
    Plus,
    Arithmetic(Arithmetic),
    Relation(Relation),
    Connective(Connective),
}

// What stands before one operand.
#[derive(Clone, Copy)]
pub enum Sign {
    Positive,
    Negative,
    Not,
}

// `+` where no operand is an end.
pub fn sum(x: Answer, y: Answer) -> Answer
    ensures { answer_of result ≡ operated plus (answer_of x) (answer_of y) }
{
    match (x, y) {
        (Answer::Integer(a), Answer::Integer(b)) => integers::add(a, b).map_or_else(
            Answer::Ended,
            Answer::Integer,
        ),
        (Answer::Binary(a), Answer::Binary(b)) => bits::join(a, b).map_or_else(
            Answer::Ended,
            Answer::Binary,
        ),
        (Answer::Text(a), Answer::Text(b)) => strings::join(a, b).map_or_else(
            Answer::Ended,
            Answer::Text,
        ),
        _ => Answer::Indeterminate,
    }
}

fn computed(o: Arithmetic, a: i64, b: i64) -> Result<i64, End>
    ensures { integer_answer result ≡ computed (arithmetic_of o) a b }
{
    match o {
        Arithmetic::Minus => integers::subtract(a, b),
        Arithmetic::Times => products::multiply(a, b),
        Arithmetic::Divide => products::div(a, b),
        Arithmetic::Modulo => products::modulo(a, b),
        Arithmetic::Power => products::power(a, b),
    }
}

// Arithmetic where no operand is an end.
pub fn calculated(o: Arithmetic, x: Answer, y: Answer) -> Answer
    ensures { answer_of result ≡ operated (arithmetic (arithmetic_of o)) (answer_of x) (answer_of y) }
{
    match (x, y) {
        (Answer::Integer(a), Answer::Integer(b)) => computed(o, a, b).map_or_else(
            Answer::Ended,
            Answer::Integer,
        ),
        _ => Answer::Indeterminate,
    }
}

// The order of two values of one kind; two others have none. Items of one enumeration have their nodes in the order in which it lists them.
// Strings of which the lengths alone are told are ordered by them; with their bytes strings are compared where the bytes are at hand (`evaluate`).
fn compared(x: Answer, y: Answer) -> Option<Ordering>
    ensures { comparison_of result ≡ compared (answer_of x) (answer_of y) }
{
    match (x, y) {
        (Answer::Integer(a), Answer::Integer(b)) => Some(integers::compare(a, b)),
        (Answer::Logical(a), Answer::Logical(b)) => Some(a.compare(b)),
        (Answer::Binary(a), Answer::Binary(b)) => Some(bits::compare(a, b)),
        (Answer::Item(a), Answer::Item(b)) => Some(a.cmp(&b)),
        (Answer::Text(a), Answer::Text(b)) => Some(a.cmp(&b)),
        _ => None,
    }
}

// A relation of what has no order is UNKNOWN.
pub fn related(o: Relation, x: Answer, y: Answer) -> Answer
    ensures { answer_of result ≡ operated (relation (relation_of o)) (answer_of x) (answer_of y) }
{
    Answer::Logical(compared(x, y).map_or(Logical::Unknown, |order| o.holds(order)))
}

// To a logical operator `?` is UNKNOWN.
pub fn counted(x: Answer) -> Logical
    ensures { logical_of result ≡ counted (answer_of x) }
{
    match x {
        Answer::Logical(l) => l,
        _ => Logical::Unknown,
    }
}

pub fn connected(o: Connective, l: Logical, m: Logical) -> Logical
    ensures { logical_of result ≡ combined_logicals (connective_of o) (logical_of l) (logical_of m) }
{
    match o {
        Connective::And => l.and(m),
        Connective::Or => l.or(m),
        Connective::Xor => l.xor(m),
    }
}
