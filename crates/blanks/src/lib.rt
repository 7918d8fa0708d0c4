// Blanks: the spaces and remarks between tokens; and what every reader of bytes uses, single bytes and runs of a class.
#![tactic(auto)]

ghost use Rattle.std.specs.Prelude.{◌≡◌, ◌+◌, ◌≤◌, length, drop, get_or};
ghost use Rattle.express.specs.Tokens.Bytes.{within};
ghost use Rattle.express.specs.Tokens.Lexis.{pair, either, run, end_of_remark, skipped};
ghost use Rattle.blanks.specs.Step.{reading, reply_of, place_of, member};

// Why a text is refused, and where; or how many tokens it has, where the columns are too short for them.
#[derive(Clone, Copy, Debug, PartialEq, Eq)]
pub enum Refusal {
    NoToken(usize),
    TooLarge(usize),
    TooLong(usize),
    TokensShort(usize),
}

impl Refusal {
    pub fn reply(self) -> u8
        ensures { result ≡ reply_of self }
    {
        match self {
            Refusal::NoToken(_) => codes::replies::NO_TOKEN,
            Refusal::TooLarge(_) => codes::replies::TOO_LARGE,
            Refusal::TooLong(_) => codes::replies::TOO_LONG,
            Refusal::TokensShort(_) => codes::replies::TOKENS_SHORT,
        }
    }

    pub fn place(self) -> usize
        ensures { result ≡ place_of self }
    {
        match self {
            Refusal::NoToken(p)
            | Refusal::TooLarge(p)
            | Refusal::TooLong(p)
            | Refusal::TokensShort(p) => p,
        }
    }
}

// The classes of bytes that a run is made of.
// Form kept: (a) a closure's call needs a `requires`, which no function has that other crates call (docs/DECISIONS.md), here `run_end`.
#[derive(Clone, Copy, Debug, PartialEq, Eq)]
pub enum Class {
    Digit,
    Bit,
    Line,
}

pub fn is_within(lo: u8, hi: u8, b: u8) -> bool
    ensures { result ≡ within lo hi b }
{
    lo <= b && b <= hi
}

pub fn is_either(x: u8, y: u8, b: u8) -> bool
    ensures { result ≡ either x y b }
{
    b == x || b == y
}

pub fn is_pair(x: u8, y: u8, b: u8, c: u8) -> bool
    ensures { result ≡ pair x y b c }
{
    b == x && c == y
}

fn is_member(class: Class, b: u8) -> bool
    ensures { result ≡ member class b }
{
    match class {
        Class::Digit => is_within(b'0', b'9', b),
        Class::Bit => is_within(b'0', b'1', b),
        Class::Line => b != b'\n',
    }
}

// The end of the run of a class that stands at a place.
pub fn run_end(s: &[u8], at: usize, class: Class) -> usize
    ensures { result ≡ run (member class) s.now at }
{
    for i in at..s.len() {
        if !is_member(class, s[i]) {
            return i;
        }
    }
    at.max(s.len())
}

// The end of the remark that opens at a place.
fn remark_end(s: &[u8], from: usize) -> Result<usize, Refusal>
    requires { from + 2 ≤ length s.now }
    ensures { reading result ≡ end_of_remark from 1 (from + 2) (drop (from + 2) s.now) }
{
    let mut i = from + 2;
    let mut depth: usize = 1;
    while i + 1 < s.len() {
        let b = s[i];
        if is_either(b'(', b'*', b) {
            let c = s[i + 1];
            if is_pair(b'(', b'*', b, c) {
                depth += 1;
                i += 2;
            } else if is_pair(b'*', b')', b, c) {
                if depth == 1 {
                    return Ok(i + 2);
                }
                depth -= 1;
                i += 2;
            } else {
                i += 1;
            }
        } else {
            i += 1;
        }
    }
    Err(Refusal::NoToken(from))
}

// The first place from `at` on that is no space and in no remark.
pub fn skip(s: &[u8], at: usize) -> Result<usize, Refusal>
    ensures { reading result ≡ skipped s.now at }
{
    let mut i = at;
    while i < s.len() {
        let b = s[i];
        if b == b' ' {
            i += 1;
        } else if b > b'-' {
            return Ok(i);
        } else if is_within(b'\t', b'\r', b) {
            i += 1;
        } else {
            let c = columns::get_or(s, i + 1, 0);
            if is_pair(b'-', b'-', b, c) {
                i = run_end(s, i + 2, Class::Line);
            } else if is_pair(b'(', b'*', b, c) {
                i = remark_end(s, i)?;
            } else {
                return Ok(i);
            }
        }
    }
    Ok(i)
}
