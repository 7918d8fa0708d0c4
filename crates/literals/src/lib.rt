// The values of integer, binary and string literals, from the bytes of their tokens.
#![tactic(auto)]

ghost use Rattle.std.specs.Prelude.{◌≡◌, cond, not, ◌+◌, ◌-◌, ◌≤◌, ◌<◌, eqb, length as size, take, drop, set};
ghost use Rattle.std.specs.List.{prefix_len, position_or_len};
ghost use Rattle.std.proofs.lemmas.List.Edits.{sets};
ghost use Rattle.express.specs.Tokens.Lexis.{numeral, greatest, integer_value, binary_value, quote, string_value};
ghost use Rattle.literals.specs.Literal.{digit_value, greatest_base, few, capped, between as between_quotes, FewBits};

const DECIMAL: u64 = 10;

const BINARY: u64 = 2;

// What is read of any larger number.
const BEYOND: u64 = codes::limits::INTEGER + 1;

// The bytes of a token, as far as the text goes.
fn token(s: &[u8], start: usize, length: usize) -> &[u8]
    ensures { result.now ≡ take length (drop start s.now) }
{
    let rest = &s[start.min(s.len())..];
    &rest[..length.min(rest.len())]
}

fn digit(b: u8) -> u64
    ensures { (result ≡ digit_value b) × (result ≤ 255) }
{
    b.saturating_sub(b'0') as u64
}

// The number that digits of a base stand for behind others that stand for `before`, as far as 2 to the 63.
fn numeral_of(digits: &[u8], base: u64, before: u64) -> u64
    requires { (0 < base) × (base ≤ greatest_base) × (before ≤ greatest) }
    ensures { result ≡ capped (numeral base before digits.now) }
{
    let mut v = before;
    for b in digits {
        let d = digit(*b);
        if v > (codes::limits::INTEGER - d) / base {
            return BEYOND;
        }
        v = v * base + d;
    }
    v
}

// So many digits of base 2, whatever bytes they are, stay below 2 to the 63.
const FEW: usize = 55;

// The number that a few bytes stand for in base 2: no bound has to be looked at.
fn few_bits(bits: &[u8]) -> u64
    requires { size bits.now ≤ few }
    ensures { FewBits bits.now result }
{
    let mut v: u64 = 0;
    for b in bits {
        v = v * BINARY + digit(*b);
    }
    v
}

// How many zeros there are in front: none of them counts, and there may be a whole file of them.
fn zeros(digits: &[u8]) -> usize
    ensures are { result ≡ prefix_len (λ b. eqb b 48) digits.now }
    ensures within { result ≤ size digits.now }
{
    digits.iter().take_while(|b| **b == b'0').count()
}

// The value of the integer literal that lies from a start on, as far as 2 to the 63, which no literal of the language reaches.
pub fn integer(s: &[u8], start: usize, length: usize) -> u64
    ensures { result ≡ capped (integer_value (take length (drop start s.now))) }
{
    let digits = token(s, start, length);
    numeral_of(&digits[zeros(digits)..], DECIMAL, 0)
}

// The bits of a binary literal as a number, its `%` passed over; there are as many as the token has bytes after that.
pub fn binary(s: &[u8], start: usize, length: usize) -> u64
    ensures { result ≡ capped (binary_value (take length (drop start s.now))) }
{
    let Some((_, bits)) = token(s, start, length).split_first() else {
        return 0;
    };
    let few = bits.len().min(FEW);
    numeral_of(&bits[few..], BINARY, few_bits(&bits[..few]))
}

// What stands between the quotes of a string.
fn between(token: &[u8]) -> &[u8]
    ensures { result.now ≡ between_quotes token.now }
{
    let rest = &token[token.len().min(1)..];
    &rest[..token.len().saturating_sub(2)]
}

// How many bytes stand there for one byte of the value: a quote is a pair.
fn width(b: u8) -> usize
    ensures { result ≡ cond (eqb b quote) 2 1 }
{
    if b == b'\'' { 2 } else { 1 }
}

// How many bytes come before the first quote. Where the next one stands depends on none of them.
fn unquoted(text: &[u8]) -> usize
    ensures { result ≡ position_or_len (λ b. eqb b quote) text.now }
{
    text.iter().take_while(|b| **b != b'\'').count()
}

// How many bytes the value of the string literal has that lies from a start on. Most have no quote inside.
pub fn string_length(s: &[u8], start: usize, length: usize) -> usize
    ensures { result ≡ size (string_value (take length (drop start s.now))) }
{
    let text = between(token(s, start, length));
    let mut i = unquoted(text);
    let mut n = i;
    while i < text.len() {
        i += width(text[i]);
        n += 1;
    }
    n
}

// A byte into a place so far behind another, if there is one.
pub fn put_behind(out: &mut [u8], at: usize, n: usize, b: u8)
    ensures { out.new ≡ set out.old (at + n) b }
{
    if n < out.len().saturating_sub(at) {
        out[at + n] = b;
    }
}

// The value of the string literal that lies from a start on, into the places from `at` on as far as they go; how many bytes it has.
pub fn string_bytes(s: &[u8], start: usize, length: usize, out: &mut [u8], at: usize) -> usize
    ensures { (result ≡ size (string_value (take length (drop start s.now))))
        × (out.new ≡ sets out.old at (string_value (take length (drop start s.now)))) }
{
    let text = between(token(s, start, length));
    let mut i: usize = 0;
    let mut n: usize = 0;
    while i < text.len() {
        let b = text[i];
        put_behind(out, at, n, b);
        i += width(b);
        n += 1;
    }
    n
}
