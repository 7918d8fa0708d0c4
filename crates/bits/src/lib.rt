// Binaries: joining and comparing.
#![tactic(auto)]

ghost use Rattle.std.specs.Prelude.{◌≡◌, ◌≤◌, ◌/◌, ◌%◌, ◌^◌, take};
ghost use Rattle.express.specs.Semantics.AnswerRow.{row, row_of};
ghost use Rattle.express.specs.Semantics.Bits.{join, number, compare_bits};
ghost use Rattle.values.specs.Meaning.{ordering_of};
ghost use Rattle.bits.specs.Meaning.{bits_of, Joins};

use std::cmp::Ordering;
use values::End;

// The most bits of a binary.
pub const MOST: u64 = codes::limits::BITS as u64;

// The bits of a number.
const WORD: u8 = 64;

// The last `length` bits of `number`, the leftmost of them weighing most. Every pair stands for a list of bits: what
// `number` has left of them plays no part.
#[derive(Clone, Copy)]
pub struct Binary {
    pub number: u64,
    pub length: u8,
}

// n without its last k bits.
fn high(n: u64, k: u8) -> u64
    ensures { result ≡ n / 2 ^ k }
{
    n.checked_shr(k as u32).unwrap_or(0)
}

// The last k bits of n.
pub fn low(n: u64, k: u8) -> u64
    ensures { result ≡ n % 2 ^ k }
{
    if WORD <= k {
        return n;
    }
    n % (1 << (k as u64))
}

// The bits of a, then those of b.
pub fn join(a: Binary, b: Binary) -> Result<Binary, End>
    ensures { Joins (bits_of a) (bits_of b) result }
{
    if MOST < (a.length as u64) + (b.length as u64) {
        return Err(End::OutOfRange);
    }
    let m = low(a.number, a.length);
    let n = low(b.number, b.length);
    Ok(Binary {
        number: (m << (b.length as u64)) + n,
        length: a.length + b.length,
    })
}

// The same as the row of its answer: the kind is returned, number and length are written.
pub fn join_row(a: Binary, b: Binary, number: &mut i64, length: &mut u8) -> u8
    ensures { row result number.new length.new ≡ row_of (join (bits_of a) (bits_of b)) }
{
    match join(a, b) {
        Ok(binary) => {
            *number = binary.number as i64;
            *length = binary.length;
            codes::answers::BINARY
        }
        Err(e) => {
            *number = 0;
            *length = 0;
            u8::from(e)
        }
    }
}

// The number of the first l bits.
fn first(a: Binary, l: u8) -> u64
    requires { l ≤ a.length }
    ensures { result ≡ number (take l (bits_of a)) }
{
    low(high(a.number, a.length - l), l)
}

// From the left as far as both go; then the shorter is less.
pub fn compare(a: Binary, b: Binary) -> Ordering
    ensures { ordering_of result ≡ compare_bits (bits_of a) (bits_of b) }
{
    let l = a.length.min(b.length);
    let m = first(a, l);
    let n = first(b, l);
    m.cmp(&n).then(a.length.cmp(&b.length))
}
