// Integers of 64 bits: exact results, and the ends of what has none. Sums, opposites, their order, and the rows of outcomes.
#![tactic(auto)]

ghost use Rattle.std.specs.Prelude.{◌≡◌};
ghost use Rattle.express.specs.Semantics.AnswerRow.{row, row_of};
ghost use Rattle.express.specs.Semantics.Integer.{sum, difference, negation, compareℤ};
ghost use Rattle.values.specs.Meaning.{ordering_of};
ghost use Rattle.integers.specs.Meaning.{integer_answer};

use std::cmp::Ordering;
use values::End;

#[tactic(auto, using(crate::proofs::Exact::checked))]
pub fn add(a: i64, b: i64) -> Result<i64, End>
    ensures { integer_answer result ≡ sum a b }
{
    a.checked_add(b).ok_or(End::OutOfRange)
}

#[tactic(auto, using(crate::proofs::Exact::checked))]
pub fn subtract(a: i64, b: i64) -> Result<i64, End>
    ensures { integer_answer result ≡ difference a b }
{
    a.checked_sub(b).ok_or(End::OutOfRange)
}

// The least integer alone has its opposite out of the range.
#[tactic(auto, using(crate::proofs::Exact::checked))]
pub fn negate(a: i64) -> Result<i64, End>
    ensures { integer_answer result ≡ negation a }
{
    a.checked_neg().ok_or(End::OutOfRange)
}

pub fn compare(a: i64, b: i64) -> Ordering
    ensures { ordering_of result ≡ compareℤ a b }
{
    a.cmp(&b)
}

// A result as the row of its answer: the kind is returned, number and length are written.
pub fn answer_row(outcome: Result<i64, End>, number: &mut i64, length: &mut u8) -> u8
    ensures { row result number.new length.new ≡ row_of (integer_answer outcome) }
{
    *length = 0;
    match outcome {
        Ok(v) => {
            *number = v;
            codes::answers::INTEGER
        }
        Err(e) => {
            *number = 0;
            u8::from(e)
        }
    }
}
