// What operators, signs and intervals make of answers, ends among them; what a constant holds.
#![tactic(auto)]

ghost use Rattle.std.specs.Prelude.{◌≡◌};
ghost use Rattle.express.specs.Semantics.Evaluate.{boolean_answer};
ghost use Rattle.express.specs.Semantics.Operate.{operated, combined, applied, between};
ghost use Rattle.express.specs.Semantics.Shape.{negative, not};
ghost use Rattle.values.specs.Meaning.{logical_of, relation_of};
ghost use Rattle.operations.specs.Meaning.{answer_of, operator_of, sign_of, Holds};

use operations::{
    Answer, Connective, Operator, Sign, calculated, connected, counted, related, sum,
};
use values::End;
use values::logical::Logical;
use values::order::Relation;

// What is computed where no operand is an end.
fn operated(o: Operator, x: Answer, y: Answer) -> Answer
    ensures { answer_of result ≡ operated (operator_of o) (answer_of x) (answer_of y) }
{
    match o {
        Operator::Plus => sum(x, y),
        Operator::Arithmetic(p) => calculated(p, x, y),
        Operator::Relation(p) => related(p, x, y),
        Operator::Connective(p) => Answer::Logical(connected(p, counted(x), counted(y))),
    }
}

// THE COMBINATION OF TWO ANSWERS: the first end, from left to right; else what is computed.
pub fn combined(o: Operator, x: Answer, y: Answer) -> Answer
    ensures { answer_of result ≡ combined (operator_of o) (answer_of x) (answer_of y) }
{
    match (x, y) {
        (Answer::Ended(e), _) => Answer::Ended(e),
        (_, Answer::Ended(e)) => Answer::Ended(e),
        _ => operated(o, x, y),
    }
}

// The sign `-`.
fn minus_of(x: Answer) -> Answer
    ensures { answer_of result ≡ applied negative (answer_of x) }
{
    match x {
        Answer::Integer(a) => integers::negate(a).map_or_else(Answer::Ended, Answer::Integer),
        Answer::Ended(e) => Answer::Ended(e),
        _ => Answer::Indeterminate,
    }
}

// NOT.
fn not_of(x: Answer) -> Answer
    ensures { answer_of result ≡ applied not (answer_of x) }
{
    match x {
        Answer::Ended(e) => Answer::Ended(e),
        _ => Answer::Logical(counted(x).not()),
    }
}

// The sign `+` leaves its operand as it is.
pub fn applied(s: Sign, x: Answer) -> Answer
    ensures { answer_of result ≡ applied (sign_of s) (answer_of x) }
{
    match s {
        Sign::Positive => x,
        Sign::Negative => minus_of(x),
        Sign::Not => not_of(x),
    }
}

// Both relations of an interval, joined by AND; the item stands in each.
pub fn between(o: Relation, p: Relation, low: Answer, item: Answer, high: Answer) -> Answer
    ensures { answer_of result ≡ between (relation_of o) (relation_of p) (answer_of low) (answer_of item) (answer_of high) }
{
    let first = combined(Operator::Relation(o), low, item);
    let second = combined(Operator::Relation(p), item, high);
    combined(Operator::Connective(Connective::And), first, second)
}

// UNKNOWN is no member of BOOLEAN.
fn in_boolean(l: Logical) -> Answer
    ensures { answer_of result ≡ boolean_answer (logical_of l) }
{
    match l {
        Logical::Unknown => Answer::Ended(End::UnknownBoolean),
        Logical::False | Logical::True => Answer::Logical(l),
    }
}

// What a constant holds, from the answer of its expression and whether its type is BOOLEAN.
pub fn held(boolean: bool, x: Answer) -> Answer
    ensures { Holds boolean x result }
{
    match x {
        Answer::Logical(l) if boolean => in_boolean(l),
        _ => x,
    }
}
