// The rows in which answers are kept.
#![tactic(auto)]

ghost use Rattle.std.specs.Prelude.{◌≡◌};
ghost use Rattle.express.specs.Semantics.Answer.{indeterminate, binary, item, end};
ghost use Rattle.express.specs.Semantics.AnswerRow.{row, row_of, natural, ranked};
ghost use Rattle.express.specs.Semantics.Bits.{bits};
ghost use Rattle.values.specs.Meaning.{logical_of};
ghost use Rattle.bits.specs.Meaning.{bits_of};
ghost use Rattle.operations.specs.Meaning.{answer_of};
ghost use Rattle.answer_rows.specs.Stored.{row_in, stored, sized_answer};

use bits::Binary;
use operations::Answer;
use values::End;
use values::logical::Logical;

// Ranks of logicals; any other is that of TRUE.
const FALSE: u64 = codes::answers::FALSE as u64;

const UNKNOWN: u64 = codes::answers::UNKNOWN as u64;

#[derive(Clone, Copy)]
pub struct Row {
    pub kind: u8,
    pub number: i64,
    pub length: u8,
}

// The row of `?`.
fn blank() -> Row
    ensures { row_in result ≡ row_of indeterminate }
{
    Row {
        kind: codes::answers::INDETERMINATE,
        number: 0,
        length: 0,
    }
}

fn binary_row(b: Binary) -> Row
    ensures { row_in result ≡ row_of (stored (binary (bits_of b))) }
{
    if bits::MOST < (b.length as u64) {
        return blank();
    }
    Row {
        kind: codes::answers::BINARY,
        number: bits::low(b.number, b.length) as i64,
        length: b.length,
    }
}

// The row of an answer, that of a string with the start 0; of what no row can hold, which no operation gives, that of `?`.
pub fn row_of(a: Answer) -> Row
    ensures { row_in result ≡ row_of (stored (answer_of a)) }
{
    match a {
        Answer::Indeterminate => blank(),
        Answer::Integer(z) => Row {
            kind: codes::answers::INTEGER,
            number: z,
            length: 0,
        },
        Answer::Logical(l) => Row {
            kind: codes::answers::LOGICAL,
            number: u8::from(l) as i64,
            length: 0,
        },
        Answer::Binary(b) => binary_row(b),
        Answer::Item(m) => Row {
            kind: codes::answers::ITEM,
            number: m as i64,
            length: 0,
        },
        Answer::Text(n) => Row {
            kind: codes::answers::STRING,
            number: 0,
            length: n,
        },
        Answer::Ended(e) => Row {
            kind: u8::from(e),
            number: 0,
            length: 0,
        },
    }
}

fn natural(z: i64) -> u64
    ensures { result ≡ natural z }
{
    u64::try_from(z).unwrap_or(0)
}

fn ranked(n: u64) -> Logical
    ensures { logical_of result ≡ ranked n }
{
    match n {
        FALSE => Logical::False,
        UNKNOWN => Logical::Unknown,
        _ => Logical::True,
    }
}

fn binary(n: u64, length: u8) -> Answer
    ensures { answer_of result ≡ stored (binary (bits length n)) }
{
    if bits::MOST < (length as u64) {
        return Answer::Indeterminate;
    }
    Answer::Binary(Binary { number: n, length })
}

// By `match`: with `map_or` what reads a row grew so large that `node_answers::held_answer` got a call of its own, which hands its answer on through
// memory, and files whose constants name each other took almost twice as long.
fn item(n: u64) -> Answer
    ensures { answer_of result ≡ stored (item n) }
{
    match u32::try_from(n) {
        Ok(m) => Answer::Item(m),
        Err(_) => Answer::Indeterminate,
    }
}

fn end(kind: u8) -> Answer
    ensures { answer_of result ≡ stored (end kind) }
{
    End::try_from(kind).map_or(Answer::Indeterminate, Answer::Ended)
}

// The answer that a row stands for, a string by its length; `?` for a row of no answer.
pub fn answer_of_row(kind: u8, number: i64, length: u8) -> Answer
    ensures { answer_of result ≡ stored (sized_answer (row kind number length)) }
{
    match kind {
        codes::answers::INDETERMINATE => Answer::Indeterminate,
        codes::answers::INTEGER => Answer::Integer(number),
        codes::answers::LOGICAL => Answer::Logical(ranked(natural(number))),
        codes::answers::BINARY => binary(natural(number), length),
        codes::answers::ITEM => item(natural(number)),
        codes::answers::STRING => Answer::Text(length),
        _ => end(kind),
    }
}
