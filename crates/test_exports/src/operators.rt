// The operators. An operand passes as its row of three numbers, and so does the answer: the kind is returned, number and
// length are written.
ghost use Rattle.std.specs.Prelude.{◌≡◌};
ghost use Rattle.express.specs.Semantics.AnswerRow.{row, row_of};
ghost use Rattle.express.specs.Semantics.Operate.{combined, applied, between};
ghost use Rattle.operations.specs.Meaning.{answer_of, arithmetic_of, connective_of, operator_of, sign_of};
ghost use Rattle.answer_rows.specs.Stored.{stored};
ghost use Rattle.test_exports.specs.Places.{relation_at};
ghost use Rattle.test_exports.specs.Operands.{answer_at, arithmetic_at, connective_at, operator_at, sign_at, HoldsRow};

use crate::logicals;
use answer_rows::{answer_of_row, row_of};
use operations::{Answer, Arithmetic, Connective, Operator, Sign};

fn arithmetic(n: u8) -> Arithmetic
    ensures { arithmetic_of result ≡ arithmetic_at n }
{
    match n {
        0 => Arithmetic::Minus,
        1 => Arithmetic::Times,
        2 => Arithmetic::Divide,
        3 => Arithmetic::Modulo,
        _ => Arithmetic::Power,
    }
}

fn connective(n: u8) -> Connective
    ensures { connective_of result ≡ connective_at n }
{
    match n {
        0 => Connective::And,
        1 => Connective::Or,
        _ => Connective::Xor,
    }
}

fn sign(n: u8) -> Sign
    ensures { sign_of result ≡ sign_at n }
{
    match n {
        0 => Sign::Positive,
        1 => Sign::Negative,
        _ => Sign::Not,
    }
}

fn operator(class: u8, n: u8) -> Operator
    ensures { operator_of result ≡ operator_at class n }
{
    match class {
        0 => Operator::Plus,
        1 => Operator::Arithmetic(arithmetic(n)),
        2 => Operator::Relation(logicals::relation(n)),
        _ => Operator::Connective(connective(n)),
    }
}

fn store(answer: Answer, number: &mut i64, length: &mut u8) -> u8
    ensures { row result number.new length.new ≡ row_of (stored (answer_of answer)) }
{
    let row = row_of(answer);
    let z = row.number;
    let l = row.length;
    *number = z;
    *length = l;
    row.kind
}

#[unsafe(no_mangle)]
pub extern "C" fn woffulent_combined(
    class: u8,
    place: u8,
    kind_a: u8,
    number_a: i64,
    length_a: u8,
    kind_b: u8,
    number_b: i64,
    length_b: u8,
    number: &mut i64,
    length: &mut u8,
) -> u8
    ensures { row result number.new length.new ≡ row_of (stored
        (combined (operator_at class place) (answer_at kind_a number_a length_a) (answer_at kind_b number_b length_b))) }
{
    let a = answer_of_row(kind_a, number_a, length_a);
    let b = answer_of_row(kind_b, number_b, length_b);
    store(
        combinations::combined(operator(class, place), a, b),
        number,
        length,
    )
}

#[unsafe(no_mangle)]
pub extern "C" fn woffulent_applied(
    place: u8,
    kind_a: u8,
    number_a: i64,
    length_a: u8,
    number: &mut i64,
    length: &mut u8,
) -> u8
    ensures { row result number.new length.new ≡ row_of (stored
        (applied (sign_at place) (answer_at kind_a number_a length_a))) }
{
    store(
        combinations::applied(sign(place), answer_of_row(kind_a, number_a, length_a)),
        number,
        length,
    )
}

#[unsafe(no_mangle)]
pub extern "C" fn woffulent_between(
    first: u8,
    second: u8,
    kind_a: u8,
    number_a: i64,
    length_a: u8,
    kind_b: u8,
    number_b: i64,
    length_b: u8,
    kind_c: u8,
    number_c: i64,
    length_c: u8,
    number: &mut i64,
    length: &mut u8,
) -> u8
    ensures { row result number.new length.new ≡ row_of (stored
        (between (relation_at first) (relation_at second) (answer_at kind_a number_a length_a)
        (answer_at kind_b number_b length_b) (answer_at kind_c number_c length_c))) }
{
    let low = answer_of_row(kind_a, number_a, length_a);
    let item = answer_of_row(kind_b, number_b, length_b);
    let high = answer_of_row(kind_c, number_c, length_c);
    let answer = combinations::between(
        logicals::relation(first),
        logicals::relation(second),
        low,
        item,
        high,
    );
    store(answer, number, length)
}

#[unsafe(no_mangle)]
pub extern "C" fn woffulent_held(
    boolean: bool,
    kind_a: u8,
    number_a: i64,
    length_a: u8,
    number: &mut i64,
    length: &mut u8,
) -> u8
    ensures { HoldsRow boolean (answer_at kind_a number_a length_a) (row result number.new length.new) }
{
    store(
        combinations::held(boolean, answer_of_row(kind_a, number_a, length_a)),
        number,
        length,
    )
}
