// What symbols mean among some nodes, in a table by symbol. Each entry has a stamp beside what it says, so that nothing is cleared
// between two uses: under a new stamp every entry says none.
#![tactic(auto)]

ghost use Rattle.std.specs.Prelude.{◌≡◌, ◌+◌, ◌*◌, ◌<◌};
ghost use Rattle.symbol_tables.specs.Entry.{code_count, stamp_count, node_limit, held, joined, says};
ghost use Rattle.symbol_tables.specs.Table.{Adds, AddsRange, either_kind};

use columns::{get_or, index, number, put};

// Several meanings; one meaning is one more than a node, and 0 is none.
pub const SEVERAL: u32 = 4294967295;

// An entry is a stamp times the number of codes, and a code: several have the last one.
const CODES: u32 = 131072;

const STAMPS: u32 = 32768;

const SEVERAL_CODE: u32 = 131071;

// The code of an entry under a stamp; under another it has none.
fn held(stamp: u32, entry: u32) -> u32
    ensures { result ≡ held stamp entry }
{
    if entry / CODES == stamp {
        entry % CODES
    } else {
        0
    }
}

// An entry of a stamp and a code.
fn entry(stamp: u32, code: u32) -> u32
    ensures { stamp < stamp_count → code < code_count → result ≡ stamp * code_count + code }
{
    (stamp % STAMPS) * CODES + code % CODES
}

// A code with one node more.
fn more(code: u32, node: u32) -> u32
    ensures { node < node_limit → result ≡ joined code node }
{
    if code == 0 {
        node % CODES + 1
    } else {
        SEVERAL_CODE
    }
}

// What a symbol means under a stamp.
pub fn meaning_of(table: &[u32], stamp: u32, symbol: u32) -> u32
    ensures { result ≡ says table.now stamp symbol }
{
    let code = held(stamp, get_or(table, index(symbol), 0));
    if code == SEVERAL_CODE { SEVERAL } else { code }
}

// One node more among the meanings of a symbol under a stamp.
pub fn add(table: &mut [u32], stamp: u32, symbol: u32, node: usize)
    ensures { Adds table.old stamp symbol node table.new }
{
    let s = index(symbol);
    let code = held(stamp, get_or(table, s, 0));
    put(table, s, entry(stamp, more(code, number(node))));
}

// Is it one of two kinds?
fn is_either(kind: u8, one: u8, other: u8) -> bool
    ensures { result ≡ either_kind one other kind }
{
    kind == one || kind == other
}

// The nodes from lo up to hi that are of one of two kinds, each under its symbol, as far as they have a kind and a token. Indices are
// bounded before the loop: it goes over all nodes of a schema.
pub fn add_range(
    kinds: &[u8],
    tokens: &[u32],
    symbols: &[u32],
    one: u8,
    other: u8,
    lo: usize,
    hi: usize,
    stamp: u32,
    table: &mut [u32],
)
    ensures { AddsRange kinds.now tokens.now symbols.now one other lo hi stamp table.old table.new }
{
    let end = hi.min(kinds.len().min(tokens.len()));
    for i in (lo..end).rev() {
        if is_either(kinds[i], one, other) {
            add(table, stamp, get_or(symbols, index(tokens[i]), 0), i);
        }
    }
}
