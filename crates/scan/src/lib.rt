// The token reader: bytes to a table of tokens, lent as three columns.
#![tactic(auto)]

ghost use Rattle.std.specs.Prelude.{◌≡◌, true, false, ◌+◌, ◌≤◌, ◌<◌, length, get_or, set};
ghost use Rattle.express.specs.Tokens.Bytes.{digit, letter, word_byte};
ghost use Rattle.express.specs.Tokens.Lexis.{run, end_of_exponent};
ghost use Rattle.express.specs.Tokens.Lexis.{lone, size_of_symbol, end_of_symbol, lexed_to};
ghost use Rattle.blanks.specs.Step.{reading};
ghost use Rattle.scan.specs.Scan.{mark, word_table, lone_table, colon, WordBytes, of_kind, TokenRead, Filled, ScanResult};

use blanks::{Class, Refusal, is_either, is_pair, is_within, run_end, skip};
use columns::get_or;
use literal_ends::{binary_end, exponent_end, integer_end, string_end};

// By its byte: `1` for what a word goes on with, `0` for the others. A line has 32 bytes: the digits are in the second, the
// capital letters and the underscore in the third, the small letters in the fourth.
const WORD_BYTES: [u8; 256] = *b"\
    00000000000000000000000000000000\
    00000000000000001111111111000000\
    01111111111111111111111111100001\
    01111111111111111111111111100000\
    00000000000000000000000000000000\
    00000000000000000000000000000000\
    00000000000000000000000000000000\
    00000000000000000000000000000000";

// By its byte: the byte itself where it is a symbol that begins no longer one, `_` for the others, 32 to a line.
const LONE_BYTES: [u8; 256] = *b"\
    ________________________________\
    ________()_+,-./___________;_=_?\
    ___________________________[\\]__\
    ___________________________{_}__\
    ________________________________\
    ________________________________\
    ________________________________\
    ________________________________";

fn is_letter(b: u8) -> bool
    ensures { result ≡ letter b }
{
    is_within(b'A', b'Z', b) || is_within(b'a', b'z', b)
}

// The end of the real whose point is at a place.
fn real_end(s: &[u8], point: usize) -> usize
    requires { point ≤ length s.now }
    ensures { result ≡ end_of_exponent s.now (run digit s.now (point + 1)) }
{
    exponent_end(s, run_end(s, point + 1, Class::Digit))
}

// How many of four bytes are a symbol, of which the first is a colon and these are the others.
fn colon_size(c: u8, d: u8, e: u8) -> usize
    ensures { result ≡ size_of_symbol colon c d e }
{
    if c == b'=' {
        if d == b':' {
            return 3;
        }
        return 2;
    }
    if is_pair(b'<', b'>', c, d) {
        if e == b':' {
            return 4;
        }
    }
    1
}

// Form kept: (c) a match with guards joins its arms, and its goals (`returns-in-60-2-2`) have only names that may change.
fn symbol_size(b: u8, c: u8, d: u8, e: u8) -> usize
    requires { lone b ≡ false }
    ensures { result ≡ size_of_symbol b c d e }
{
    if b == b':' {
        return colon_size(c, d, e);
    }
    if b == b'<' {
        if c == b'=' {
            return 2;
        }
        if is_either(b'>', b'*', c) {
            return 2;
        }
        return 1;
    }
    if b == b'>' {
        if c == b'=' {
            return 2;
        }
        return 1;
    }
    if b == b'*' {
        if c == b'*' {
            return 2;
        }
        return 1;
    }
    if b == b'|' {
        if c == b'|' {
            return 2;
        }
        return 1;
    }
    0
}

// The end of a symbol that is not by its first byte alone one.
fn symbol_end(s: &[u8], at: usize) -> Result<usize, Refusal>
    requires { (at < length s.now) × (lone (get_or s.now at 0) ≡ false) }
    ensures { reading result ≡ end_of_symbol s.now at }
{
    let b = s[at];
    // `:=` is the commonest symbol of two bytes.
    let c = get_or(s, at + 1, 0);
    if is_pair(b':', b'=', b, c) {
        if get_or(s, at + 2, 0) == b':' {
            return Ok(at + 3);
        }
        return Ok(at + 2);
    }
    let size = symbol_size(b, c, get_or(s, at + 2, 0), get_or(s, at + 3, 0));
    if size == 0 {
        return Err(Refusal::NoToken(at));
    }
    Ok(at + size)
}

// A token: its kind, and where it ends.
#[derive(Clone, Copy, Debug, PartialEq, Eq)]
struct Token {
    kind: u8,
    end: usize,
}

fn token_to(kind: u8, end: Result<usize, Refusal>) -> Result<Token, Refusal>
    ensures { result ≡ of_kind kind end }
{
    let end = end?;
    Ok(Token { kind, end })
}

// An integer, or a real where a point ends its digits.
fn number(s: &[u8], at: usize) -> Result<Token, Refusal>
    requires { (at < length s.now) × (letter (get_or s.now at 0) ≡ false) × (digit (get_or s.now at 0) ≡ true) }
    ensures { TokenRead s.now at result }
{
    let end = run_end(s, at, Class::Digit);
    if get_or(s, end, 0) == b'.' {
        return token_to(codes::tokens::REAL, Ok(real_end(s, end)));
    }
    token_to(codes::tokens::INTEGER, integer_end(s, at, end))
}

// The tables of all bytes. A constant array is built anew wherever it is named: these are built once, and lent.
#[derive(Drop)]
struct Bytes {
    words: [u8; 256],
    lones: [u8; 256],
    ghost words_are: { words ≡ word_table },
    ghost lones_are: { lones ≡ lone_table },
}

impl Bytes {
    // `1` where a word goes on with a byte, `0` where it does not.
    fn word_mark(&self, b: u8) -> u8
        ensures { result ≡ mark (word_byte b) }
    {
        self.words[columns::byte_index(b)]
    }

    // How many of the four bytes at a place go on a word, up to the first that does not: one jump for the four.
    fn word_bytes(&self, s: &[u8], i: usize) -> u8
        requires { i + 3 < length s.now }
        ensures { WordBytes s.now i result }
    {
        let a = self.word_mark(s[i]) % 2;
        let b = a & self.word_mark(s[i + 1]);
        let c = b & self.word_mark(s[i + 2]);
        let d = c & self.word_mark(s[i + 3]);
        if d == 0 { a + b + c } else { 4 }
    }

    // The end of the word that goes on at a place, a byte a turn.
    fn word_rest(&self, s: &[u8], at: usize) -> usize
        ensures { result ≡ run word_byte s.now at }
    {
        for i in at..s.len() {
            if self.word_mark(s[i]) == b'0' {
                return i;
            }
        }
        at.max(s.len())
    }

    // The same, four bytes a turn: a quarter of the jumps, and words of like lengths are alike to them.
    fn word_end(&self, s: &[u8], at: usize) -> usize
        requires { at ≤ length s.now }
        ensures { result ≡ run word_byte s.now at }
    {
        let mut i = at;
        while i + 3 < s.len() {
            let n = self.word_bytes(s, i);
            if n < 4 {
                return i + columns::byte_index(n);
            }
            i += 4;
        }
        self.word_rest(s, i)
    }

    // Whether a byte is a symbol that begins no longer one.
    fn is_lone(&self, b: u8) -> bool
        ensures { result ≡ lone b }
    {
        self.lones[columns::byte_index(b)] != b'_'
    }

    // The token at a place, by its first byte.
    fn token(&self, s: &[u8], at: usize) -> Result<Token, Refusal>
        requires { at < length s.now }
        ensures { TokenRead s.now at result }
    {
        let b = s[at];
        if self.is_lone(b) {
            return token_to(codes::tokens::SYMBOL, Ok(at + 1));
        }
        if is_letter(b) {
            return token_to(codes::tokens::WORD, Ok(self.word_end(s, at + 1)));
        }
        if is_within(b'0', b'9', b) {
            return number(s, at);
        }
        if b == b'\'' {
            return token_to(codes::tokens::STRING, string_end(s, at));
        }
        if b == b'%' {
            return token_to(codes::tokens::BINARY, binary_end(s, at));
        }
        token_to(codes::tokens::SYMBOL, symbol_end(s, at))
    }
}

// One row, as far as the columns go; each of them has room entries.
fn push(
    kinds: &mut [u8],
    starts: &mut [u32],
    lengths: &mut [u32],
    room: usize,
    n: usize,
    kind: u8,
    start: u32,
    size: u32,
)
    requires { (room ≤ length kinds.old) × (room ≤ length starts.old) × (room ≤ length lengths.old) }
    ensures { (kinds.new ≡ set kinds.old n kind) × (starts.new ≡ set starts.old n start)
        × (lengths.new ≡ set lengths.old n size) }
{
    if n < room {
        kinds[n] = kind;
        starts[n] = start;
        lengths[n] = size;
        return;
    }
    columns::put(kinds, n, kind);
    columns::put(starts, n, start);
    columns::put(lengths, n, size);
}

// One row for each token, as far as the columns go; the number of tokens, or the first refusal.
fn fill(
    src: &[u8],
    limit: u32,
    kinds: &mut [u8],
    starts: &mut [u32],
    lengths: &mut [u32],
    room: usize,
) -> Result<usize, Refusal>
    requires { (room ≤ length kinds.old) × (room ≤ length starts.old) × (room ≤ length lengths.old) }
    ensures { Filled (lexed_to limit src.now) kinds.old starts.old lengths.old result
        kinds.new starts.new lengths.new }
{
    let most = columns::index(limit);
    if src.len() > most {
        return Err(Refusal::TooLong(most));
    }
    let bytes = Bytes {
        words: WORD_BYTES,
        lones: LONE_BYTES,
    };
    let mut n: usize = 0;
    let mut at: usize = 0;
    loop {
        let p = skip(src, at)?;
        if p >= src.len() {
            return Ok(n);
        }
        let token = bytes.token(src, p)?;
        push(
            kinds,
            starts,
            lengths,
            room,
            n,
            token.kind,
            p as u32,
            (token.end - p) as u32,
        );
        n += 1;
        at = token.end;
    }
}

// The tokens of a text of so many bytes at most, a row for each: its kind, its start and its length.
pub fn scan(
    src: &[u8],
    limit: u32,
    kinds: &mut [u8],
    starts: &mut [u32],
    lengths: &mut [u32],
) -> Result<usize, Refusal>
    ensures { ScanResult limit src.now kinds.old starts.old lengths.old result
        kinds.new starts.new lengths.new }
{
    let room = kinds.len().min(starts.len().min(lengths.len()));
    let n = fill(src, limit, kinds, starts, lengths, room)?;
    if n > room {
        return Err(Refusal::TokensShort(n));
    }
    Ok(n)
}
