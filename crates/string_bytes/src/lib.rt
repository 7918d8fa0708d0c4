// The bytes of a string: those of the leaves of its expression, in node order. A literal is read in the text, a named constant in the room.
#![tactic(auto)]

ghost use Rattle.std.specs.Prelude.{◌≡◌, ◌||◌, eqb, pos, get_or, take, drop};
ghost use Rattle.express.specs.Syntax.NodeKind as node;
ghost use Rattle.express.specs.Semantics.AnswerRow.{natural};
ghost use Rattle.string_bytes.specs.Spelling.{Writes, WritesRow, WritesName, WritesLiteral, WritesNode, SpellsNodes};

use literals::{put_behind, string_bytes};
use tree::index_at;

// The columns of an expression: its text, its tokens and nodes, and what its names are bound to.
#[derive(Clone, Copy)]
pub struct Expression<'a> {
    pub src: &'a [u8],
    pub starts: &'a [u32],
    pub lengths: &'a [u32],
    pub terminals: &'a [u8],
    pub kinds: &'a [u8],
    pub tokens: &'a [u32],
    pub sizes: &'a [u32],
    pub bindings: &'a [u32],
}

// What is known of the constants of a file: the row of each by its node, in answer columns that start with row `first_row`, and the room of their strings.
#[derive(Clone, Copy)]
pub struct Known<'a> {
    pub file_kinds: &'a [u8],
    pub row_of: &'a [u32],
    pub first_row: usize,
    pub kinds: &'a [u8],
    pub numbers: &'a [i64],
    pub lengths: &'a [u8],
    pub room: &'a [u8],
}

// Copies a part of some bytes, as far as they go, into the places from `at` on; how many bytes it has.
pub fn copy_bytes(from: &[u8], start: usize, size: usize, out: &mut [u8], at: usize) -> usize
    ensures { Writes (take size (drop start from.now)) at out.old out.new result }
{
    let first = start.min(from.len());
    let end = size.min(from.len() - first);
    for i in 0..end {
        put_behind(out, at, i, from[first + i]);
    }
    end
}

// A number that counts from 0; 0 for one below it.
fn natural(z: i64) -> usize
    ensures { result ≡ natural z }
{
    if z < 0 { 0 } else { z as usize }
}

// Where the string of a row starts in the room.
pub fn start_at(numbers: &[i64], i: usize) -> usize
    ensures { result ≡ natural (get_or numbers.now i (pos 0)) }
{
    natural(columns::get_or(numbers, i, 0))
}

// The bytes in the room of the string in row i; none of a row that holds no string.
fn row_bytes(known: &Known, i: usize, out: &mut [u8], at: usize) -> usize
    ensures { WritesRow known.now.room.now known.now.kinds.now known.now.numbers.now known.now.lengths.now i at
        out.old out.new result }
{
    if columns::get_or(known.kinds, i, 0) == codes::answers::STRING {
        let size = columns::byte_index(columns::get_or(known.lengths, i, 0));
        return copy_bytes(known.room, start_at(known.numbers, i), size, out, at);
    }
    0
}

// The bytes of a name, by what it is bound to: those of a constant.
fn named_bytes(binding: u32, known: &Known, out: &mut [u8], at: usize) -> usize
    ensures { WritesName known.now.file_kinds.now known.now.row_of.now known.now.first_row known.now.kinds.now
        known.now.numbers.now known.now.lengths.now known.now.room.now binding at
        out.old out.new result }
{
    if binding == 0 {
        return 0;
    }
    let d = columns::index(binding - 1);
    if columns::get_or(known.file_kinds, d, 0) == codes::nodes::CONSTANT {
        let row = index_at(known.row_of, d).saturating_sub(known.first_row);
        return row_bytes(known, row, out, at);
    }
    0
}

// The value of a literal that is a string.
fn literal_bytes(expression: &Expression, token: usize, out: &mut [u8], at: usize) -> usize
    ensures { WritesLiteral expression.now.src.now expression.now.starts.now expression.now.lengths.now
        expression.now.terminals.now token at
        out.old out.new result }
{
    if columns::get_or(expression.terminals, token, 0) == codes::STRING_LITERAL {
        let start = index_at(expression.starts, token);
        let length = index_at(expression.lengths, token);
        return string_bytes(expression.src, start, length, out, at);
    }
    0
}

// May a node of this kind be bound to a constant?
pub fn is_name(kind: u8) -> bool
    ensures { result ≡ (eqb kind node.name || eqb kind node.qualified_item) }
{
    kind == codes::nodes::NAME || kind == codes::nodes::QUALIFIED_ITEM
}

// What a node gives as a leaf.
fn node_bytes(expression: &Expression, known: &Known, n: usize, out: &mut [u8], at: usize) -> usize
    ensures { WritesNode expression.now.src.now expression.now.starts.now expression.now.lengths.now
        expression.now.terminals.now expression.now.kinds.now expression.now.tokens.now expression.now.bindings.now
        known.now.file_kinds.now known.now.row_of.now known.now.first_row known.now.kinds.now
        known.now.numbers.now known.now.lengths.now known.now.room.now n at
        out.old out.new result }
{
    let kind = columns::get_or(expression.kinds, n, 0);
    if kind == codes::nodes::OTHER {
        return literal_bytes(expression, index_at(expression.tokens, n), out, at);
    }
    if is_name(kind) {
        return named_bytes(columns::get_or(expression.bindings, n, 0), known, out, at);
    }
    0
}

// The bytes of the leaves from lo up to hi, hi itself not, as far as there are places; how many of them are filled.
pub fn spell(expression: &Expression, known: &Known, lo: usize, hi: usize, out: &mut [u8]) -> usize
    ensures { SpellsNodes expression.now.src.now expression.now.starts.now expression.now.lengths.now
        expression.now.terminals.now expression.now.kinds.now expression.now.tokens.now expression.now.bindings.now
        known.now.file_kinds.now known.now.row_of.now known.now.first_row known.now.kinds.now
        known.now.numbers.now known.now.lengths.now known.now.room.now lo hi
        out.old out.new result }
{
    let mut at: usize = 0;
    for n in lo..hi {
        let size = node_bytes(expression, known, n, out, at);
        at += size.min(out.len() - at);
    }
    at
}
