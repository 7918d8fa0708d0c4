// Where the literals of a text end: integers, the exponents of reals, strings, binaries.
#![tactic(auto)]

ghost use Rattle.std.specs.Prelude.{◌≡◌, false, ◌+◌, ◌<◌, length, drop};
ghost use Rattle.express.specs.Tokens.Bytes.{digit};
ghost use Rattle.express.specs.Tokens.Lexis.{run, end_of_integer, digits_of_exponent, end_of_exponent, end_of_binary, end_of_string};
ghost use Rattle.express.specs.Tokens.Lexis.{end_of_short_string};
ghost use Rattle.blanks.specs.Step.{reading};

use blanks::{Class, Refusal, is_either, is_within, run_end};
use columns::get_or;

// The end of the integer whose digits end at a place, unless it is too large.
pub fn integer_end(s: &[u8], at: usize, end: usize) -> Result<usize, Refusal>
    ensures { end ≡ run digit s.now at → reading result ≡ end_of_integer s.now at }
{
    let digits = end.saturating_sub(at);
    if digits < codes::limits::INTEGER_DIGITS {
        return Ok(end);
    }
    if literals::integer(s, at, digits) > codes::limits::INTEGER {
        return Err(Refusal::TooLarge(at));
    }
    Ok(end)
}

fn exponent_digits(s: &[u8], at: usize) -> usize
    requires { at < length s.now }
    ensures { result ≡ digits_of_exponent s.now at }
{
    if is_either(b'+', b'-', get_or(s, at + 1, 0)) {
        at + 2
    } else {
        at + 1
    }
}

// The end of the exponent at a place, which is that place if there is none.
pub fn exponent_end(s: &[u8], at: usize) -> usize
    ensures { result ≡ end_of_exponent s.now at }
{
    if at >= s.len() {
        return at;
    }
    if !is_either(b'e', b'E', s[at]) {
        return at;
    }
    let digits = exponent_digits(s, at);
    if !is_within(b'0', b'9', get_or(s, digits, 0)) {
        return at;
    }
    run_end(s, digits, Class::Digit)
}

// The end of the binary whose sign is at a place, if it has a bit and not too many.
pub fn binary_end(s: &[u8], at: usize) -> Result<usize, Refusal>
    ensures { reading result ≡ end_of_binary s.now at }
{
    if at >= s.len() {
        return Err(Refusal::NoToken(at));
    }
    let end = run_end(s, at + 1, Class::Bit);
    let bits = end - (at + 1);
    if bits == 0 {
        return Err(Refusal::NoToken(at));
    }
    if bits > codes::limits::BITS {
        return Err(Refusal::TooLarge(at));
    }
    Ok(end)
}

// The end of the string at a place, however long its value is.
fn quoted_end(s: &[u8], at: usize) -> Result<usize, Refusal>
    requires { at < length s.now }
    ensures { reading result ≡ end_of_string at false (at + 1) (drop (at + 1) s.now) }
{
    let mut quote = false;
    for i in at + 1..s.len() {
        let b = s[i];
        if quote {
            if b != b'\'' {
                return Ok(i);
            }
            quote = false;
        } else if b == b'\'' {
            quote = true;
        } else if !is_within(b' ', b'~', b) {
            return Err(Refusal::NoToken(at));
        }
    }
    if quote {
        Ok(s.len())
    } else {
        Err(Refusal::NoToken(at))
    }
}

// The end of the string at a place, if its value is not too long. The quotes around it are no part of the value, so a short token is not counted.
pub fn string_end(s: &[u8], at: usize) -> Result<usize, Refusal>
    ensures { reading result ≡ end_of_short_string s.now at }
{
    if at >= s.len() {
        return Err(Refusal::NoToken(at));
    }
    let end = quoted_end(s, at)?;
    let size = end.saturating_sub(at);
    if size <= codes::limits::STRING_BYTES + 2 {
        return Ok(end);
    }
    if literals::string_length(s, at, size) > codes::limits::STRING_BYTES {
        return Err(Refusal::TooLarge(at));
    }
    Ok(end)
}
