// The lines of the listing, each written into a lent buffer as far as it fits.
#![tactic(auto)]

ghost use Rattle.std.specs.Prelude.{◌≡◌, ◌<◌, ◌≤◌, ◌+◌, ◌-◌, ◌^◌, ◌/◌, ◌%◌, eqb, length, get_or, set, take, drop};
ghost use mathlib.Core.List.{[], ◌∷◌, ◌++◌, map, flat_map};
ghost use Rattle.express.specs.Tokens.Bytes.{lower};
ghost use Rattle.express.specs.Tokens.Terminal.{bytes};
ghost use Rattle.express.specs.Syntax.Tree.{is};
ghost use Rattle.express.specs.Syntax.NodeKind.{constant};
ghost use Rattle.express.specs.Semantics.Bits.{bits};
ghost use Rattle.express.specs.Semantics.AnswerRow.{natural, ranked};
ghost use Rattle.express.specs.Whole.Listing.{digit_byte, line_feed, decimal, signed, logical_name, bit_digit, quoted_byte, literal, name_of, printed, refused_line, accepted_line, answer_line};
ghost use Rattle.relations.specs.Select.{first_from};
ghost use Rattle.lines.specs.Piece.{Puts, Titled};
ghost use Rattle.lines.specs.Print.{Prints, fitted, table, table_of, record_answer};

use columns::{get_or, index, put};
use records::Answer;

// A line that is too long for the buffer, which holds its front: this is its length.
#[derive(Clone, Copy, Debug, PartialEq, Eq)]
pub struct Short {
    pub length: usize,
}

// The columns that a line is made of: the bytes of a file, where its tokens start and how long they are, and of its nodes the kinds and the tokens.
#[derive(Clone, Copy)]
pub struct Columns<'a> {
    pub text: &'a [u8],
    pub starts: &'a [u32],
    pub lengths: &'a [u32],
    pub kinds: &'a [u8],
    pub tokens: &'a [u32],
}

// Ranks of logicals; any other is that of TRUE.
const FALSE: u64 = codes::answers::FALSE as u64;

const UNKNOWN: u64 = codes::answers::UNKNOWN as u64;

// ---- pieces: each is stored from an index on, as far as it fits, and the index behind it is the answer. A line has
// three names and some bytes more: its indexes are far from the largest.

fn put_byte(out: &mut [u8], at: usize, byte: u8) -> usize
    requires { at < 2 ^ 63 }
    ensures { Puts out.old at (byte ∷ []) out.new result }
{
    put(out, at, byte);
    at + 1
}

fn put_text(out: &mut [u8], at: usize, text: &[u8]) -> usize
    requires { (at < 2 ^ 62) × (length text.now ≤ 2 ^ 32) }
    ensures { Puts out.old at text.now out.new result }
{
    for i in 0..text.len() {
        put(out, at + i, text[i]);
    }
    at + text.len()
}

// The same with letters in lower case.
// Form kept: one function with a closure would carry clauses on each of its calls, which are longer than this loop.
fn put_lower(out: &mut [u8], at: usize, text: &[u8]) -> usize
    requires { (at < 2 ^ 62) × (length text.now ≤ 2 ^ 32) }
    ensures { Puts out.old at (map lower text.now) out.new result }
{
    for i in 0..text.len() {
        put(out, at + i, text[i].to_ascii_lowercase());
    }
    at + text.len()
}

// A name in lower case; what of it is outside the bytes is left out.
fn put_name(out: &mut [u8], at: usize, text: &[u8], start: usize, length: usize) -> usize
    requires { (at < 2 ^ 62) × (length < 2 ^ 32) }
    ensures { Puts out.old at (map lower (take length (drop start text.now))) out.new result }
{
    let first = start.min(text.len());
    let end = first + length.min(text.len() - first);
    put_lower(out, at, &text[first..end])
}

// The digit of a number below 10.
fn digit(n: u64) -> u8
    requires { n < 10 }
    ensures { result ≡ digit_byte n }
{
    b'0' + (n as u8)
}

fn put_decimal(out: &mut [u8], at: usize, n: u64) -> usize
    requires { at < 2 ^ 62 }
    ensures { Puts out.old at (decimal n) out.new result }
{
    if n < 10 {
        return put_byte(out, at, digit(n));
    }
    let next = put_decimal(out, at, n / 10);
    put_byte(out, next, digit(n % 10))
}

// A number that counts from 0; 0 for one below it.
fn natural(z: i64) -> u64
    ensures { (result ≡ natural z) × (result < 2 ^ 63) }
{
    if z < 0 { 0 } else { z as u64 }
}

// The magnitude of the least integer is in the range of n + 1, for an n that is.
fn put_integer(out: &mut [u8], at: usize, z: i64) -> usize
    requires { at < 2 ^ 61 }
    ensures { Puts out.old at (signed z) out.new result }
{
    if z < 0 {
        let next = put_byte(out, at, b'-');
        return put_decimal(out, next, natural(-1 - z) + 1);
    }
    put_decimal(out, at, natural(z))
}

// The weight of the highest bit of a word.
const LAST_BIT: u8 = 63;

// `1` where the bit of that weight is set.
fn bit(n: u64, weight: u8) -> u8
    ensures { result ≡ bit_digit (eqb (n / 2 ^ weight % 2) 1) }
{
    if weight <= LAST_BIT && (n >> (weight as u64)) % 2 == 1 {
        b'1'
    } else {
        b'0'
    }
}

// The last `length` bits of n, the leftmost weighing most.
fn put_bits(out: &mut [u8], at: usize, n: u64, length: u8) -> usize
    requires { at < 2 ^ 62 }
    ensures { Puts out.old at (map bit_digit (bits length n)) out.new result }
{
    for i in 0..length {
        put(out, at + i as usize, bit(n, length - 1 - i));
    }
    at + length as usize
}

fn put_binary(out: &mut [u8], at: usize, n: u64, length: u8) -> usize
    requires { at < 2 ^ 61 }
    ensures { Puts out.old at (bytes "%" ++ map bit_digit (bits length n)) out.new result }
{
    let next = put_byte(out, at, b'%');
    put_bits(out, next, n, length)
}

// A byte of a string; a quote twice.
fn put_quoted_byte(out: &mut [u8], at: usize, byte: u8) -> usize
    requires { at < 2 ^ 62 }
    ensures { Puts out.old at (quoted_byte byte) out.new result }
{
    let next = put_byte(out, at, byte);
    if byte == b'\'' {
        return put_byte(out, next, b'\'');
    }
    next
}

// The bytes of a string, each quote twice.
fn put_quoted(out: &mut [u8], at: usize, text: &[u8]) -> usize
    requires { (at < 2 ^ 61) × (length text.now ≤ 2 ^ 31) }
    ensures { Puts out.old at (flat_map quoted_byte text.now) out.new result }
{
    let mut next = at;
    for byte in text {
        next = put_quoted_byte(out, next, *byte);
    }
    next
}

// A string as a literal; what of it is outside the room is left out.
fn put_string(out: &mut [u8], at: usize, room: &[u8], start: usize, length: u8) -> usize
    requires { at < 2 ^ 60 }
    ensures { Puts out.old at (literal (take length (drop start room.now))) out.new result }
{
    let first = start.min(room.len());
    let end = first + (length as usize).min(room.len() - first);
    let a = put_byte(out, at, b'\'');
    let b = put_quoted(out, a, &room[first..end]);
    put_byte(out, b, b'\'')
}

// The logical of a rank.
fn put_logical(out: &mut [u8], at: usize, rank: u64) -> usize
    requires { at < 2 ^ 61 }
    ensures { Puts out.old at (bytes (logical_name (ranked rank))) out.new result }
{
    match rank {
        FALSE => put_text(out, at, b"FALSE"),
        UNKNOWN => put_text(out, at, b"UNKNOWN"),
        _ => put_text(out, at, b"TRUE"),
    }
}

fn put_end(out: &mut [u8], at: usize, number: u8) -> usize
    requires { at < 2 ^ 61 }
    ensures { Puts out.old at (bytes "end " ++ decimal number) out.new result }
{
    let next = put_text(out, at, b"end ");
    put_decimal(out, next, number as u64)
}

// ---- names of nodes

// An entry of a column as an index; 0 past its end.
fn entry(column: &[u32], i: usize) -> usize
    ensures { (result ≡ get_or column.now i 0) × (result < 2 ^ 32) }
{
    index(get_or(column, i, 0))
}

// The first node of a kind from a node on, or where there is none the number of nodes.
// Form kept: its caller reads the name at that number too, as `schema_of` of `express` does.
fn first_of_kind(kinds: &[u8], kind: u8, from: usize) -> usize
    ensures { result ≡ first_from (is (table_of [] [] [] kinds.now []) kind) from (length kinds.now - from) }
{
    for node in from..kinds.len() {
        if kinds[node] == kind {
            return node;
        }
    }
    from.max(kinds.len())
}

// ---- lines

impl<'a> Columns<'a> {
    // The name of a node, by its naming token.
    fn put_named(&self, out: &mut [u8], at: usize, node: usize) -> usize
        requires { at < 2 ^ 62 }
        ensures { Puts out.old at (name_of (table self.now) node) out.new result }
    {
        let token = entry(self.tokens, node);
        let start = entry(self.starts, token);
        let length = entry(self.lengths, token);
        put_name(out, at, self.text, start, length)
    }

    // An answer by its record; an item by its name, a string by its bytes in the room.
    fn put_answer(&self, out: &mut [u8], at: usize, room: &[u8], answer: Answer) -> usize
        requires { at < 2 ^ 60 }
        ensures { Puts out.old at (printed (table self.now) (record_answer room.now answer)) out.new result }
    {
        let kind = answer.kind;
        let number = answer.number;
        match kind {
            codes::answers::INDETERMINATE => put_byte(out, at, b'?'),
            codes::answers::INTEGER => put_integer(out, at, number),
            codes::answers::LOGICAL => put_logical(out, at, natural(number)),
            codes::answers::BINARY => put_binary(out, at, natural(number), answer.length),
            codes::answers::ITEM => self.put_named(out, at, natural(number) as usize),
            codes::answers::STRING => put_string(
                out,
                at,
                room,
                natural(number) as usize,
                answer.length,
            ),
            _ => put_end(out, at, kind),
        }
    }

    // The name of a constant's schema, a point, its own name and the sign of equality.
    fn put_title(&self, out: &mut [u8], node: usize) -> usize
        ensures { Titled (table self.now) node out.old out.new result }
    {
        let schema = first_of_kind(self.kinds, codes::nodes::SCHEMA, node);
        let a = self.put_named(out, 0, schema);
        let b = put_byte(out, a, b'.');
        let c = self.put_named(out, b, node);
        put_text(out, c, b" = ")
    }

    // The first constant from a node on, or the number of nodes.
    pub fn next_constant(&self, from: usize) -> usize
        ensures { result ≡ first_from (is (table self.now) constant) from (length self.now.kinds.now - from) }
    {
        first_of_kind(self.kinds, codes::nodes::CONSTANT, from)
    }

    // `schema.constant = answer`, of the constant at a node.
    pub fn put_line(
        &self,
        out: &mut [u8],
        room: &[u8],
        node: usize,
        answer: Answer,
    ) -> Result<usize, Short>
        ensures { Prints (answer_line (table self.now) node (record_answer room.now answer)) out.old out.new result }
    {
        let a = self.put_title(out, node);
        let b = self.put_answer(out, a, room, answer);
        end_line(out, b)
    }
}

// The line feed, and whether all of the line fits.
fn end_line(out: &mut [u8], at: usize) -> Result<usize, Short>
    requires { at < 2 ^ 63 }
    ensures { (out.new ≡ set out.old at line_feed) × (result ≡ fitted (at + 1) (length out.old)) }
{
    let length = put_byte(out, at, b'\n');
    if length <= out.len() {
        Ok(length)
    } else {
        Err(Short { length })
    }
}

// `refused N at P`.
pub fn refused(out: &mut [u8], reply: u8, number: usize) -> Result<usize, Short>
    ensures { Prints (refused_line reply number) out.old out.new result }
{
    let a = put_text(out, 0, b"refused ");
    let b = put_decimal(out, a, reply as u64);
    let c = put_text(out, b, b" at ");
    let d = put_decimal(out, c, number as u64);
    end_line(out, d)
}

// `accepted N`.
pub fn accepted(out: &mut [u8], constants: usize) -> Result<usize, Short>
    ensures { Prints (accepted_line constants) out.old out.new result }
{
    let a = put_text(out, 0, b"accepted ");
    let b = put_decimal(out, a, constants as u64);
    end_line(out, b)
}
