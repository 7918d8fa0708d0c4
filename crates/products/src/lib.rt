// Integers of 64 bits: products, DIV, MOD and powers.
#![tactic(auto)]

ghost use Rattle.std.specs.Prelude.{◌≡◌};
ghost use Rattle.express.specs.Semantics.Integer.{product, DIV, MOD, power};
ghost use Rattle.integers.specs.Meaning.{integer_answer};

use values::End;

pub fn multiply(a: i64, b: i64) -> Result<i64, End>
    ensures { integer_answer result ≡ product a b }
{
    a.checked_mul(b).ok_or(End::OutOfRange)
}

// DIV: rounded down for a positive divisor, and -(a DIV -b) for a negative one.
#[tactic(auto, using(crate::proofs::Quotients::divided))]
pub fn div(a: i64, b: i64) -> Result<i64, End>
    ensures { integer_answer result ≡ DIV a b }
{
    if b == 0 {
        return Err(End::ZeroDivisor);
    }
    a.checked_div_euclid(b).ok_or(End::OutOfRange)
}

// MOD: what DIV leaves, with the divisor's sign. By -1 nothing is left, of the least integer too.
pub fn modulo(a: i64, b: i64) -> Result<i64, End>
    ensures { integer_answer result ≡ MOD a b }
{
    if b == 0 {
        return Err(End::ZeroDivisor);
    }
    let r = a.wrapping_rem_euclid(b);
    if b < 0 { Ok(-r) } else { Ok(r) }
}

// The powers of 0, 1 and -1 go by the exponent's parity alone: they take no product. From the exponent 64 on any other is out of the range.
pub fn power(a: i64, b: i64) -> Result<i64, End>
    ensures { integer_answer result ≡ power a b }
{
    if b < 0 {
        return Err(End::NegativePower);
    }
    let e = b as u64;
    if e == 0 {
        return Ok(1);
    }
    if a == 1 {
        return Ok(1);
    }
    if a == 0 {
        return Ok(0);
    }
    if a == -1 {
        return if e % 2 == 0 { Ok(1) } else { Ok(-1) };
    }
    let n = if e < 64 { e } else { 64 + e % 2 };
    a.checked_pow(n as u32).ok_or(End::OutOfRange)
}
