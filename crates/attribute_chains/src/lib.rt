// Attributes chained by their symbols: the head of a symbol's chain stands in a table, and each attribute takes two numbers of a column, its node, and
// the rank of its owner with the link to the next attribute that is spelled so. A chain is walked with a row of bits, by rank, that says which of its
// attributes count.
#![tactic(auto)]

ghost use Rattle.std.specs.Prelude.{◌≡◌, cond, ◌+◌, ◌<◌, set};
ghost use Rattle.symbol_tables.specs.Entry.{node_limit};
ghost use Rattle.attribute_chains.specs.Chains.{link_count, with_one, entered_pairs, FindsAmong, EntersEntries};

use attributes::{Entries, is_attribute, symbol_of};
use bit_rows::has;
use columns::{get_or, index, number, put};

// Links and ranks are below this number.
pub const LINKS: usize = 65536;

// The last bit at which a row may begin.
const FARTHEST: usize = 281474976710656;

// A code with one node more: none, one more than the node, or several.
fn more(code: u32, node: u32) -> u32
    ensures { node < node_limit → result ≡ with_one code node }
{
    if code == 0 {
        number(index(node) + 1)
    } else {
        symbol_tables::SEVERAL
    }
}

// One of two numbers, with no jump: whether an attribute counts cannot be foretold.
fn chosen(test: bool, yes: u32, no: u32) -> u32
    ensures { result ≡ cond test yes no }
{
    if test { yes } else { no }
}

// The code of the attributes on a chain whose bits are set, from an offset on.
pub fn found(rows: &[u32], pairs: &[u32], base: usize, head: u32) -> u32
    ensures { FindsAmong rows.now pairs.now base head result }
{
    let offset = base.min(FARTHEST);
    let mut code = 0;
    let mut link = index(head);
    while 0 < link {
        let pair = index(get_or(pairs, 2 * link - 1, 0));
        let counted = more(code, get_or(pairs, 2 * link - 2, 0));
        code = chosen(has(rows, offset + pair / LINKS), counted, code);
        link = (pair % LINKS).min(link - 1);
    }
    code
}

// One attribute more at the front of the chain of its symbol, behind so many in the column.
fn enter(heads: &mut [u32], pairs: &mut [u32], count: usize, rank: u32, symbol: u32, node: usize)
    ensures { (count < link_count → heads.new ≡ set heads.old symbol (count + 1))
        × (count < link_count → rank < link_count → node < node_limit → pairs.new ≡ entered_pairs heads.old count rank symbol node pairs.old) }
{
    let s = index(symbol);
    let c = count % LINKS;
    let link = index(get_or(heads, s, 0)) % LINKS;
    put(pairs, 2 * c, number(node));
    put(pairs, 2 * c + 1, number(index(rank) % LINKS * LINKS + link));
    put(heads, s, number(c + 1));
}

// The attributes among the entries from lo up to hi, all of one owner's rank, chained before those that are; so many are chained then.
pub fn enter_entries(
    entries: Entries,
    lo: usize,
    hi: usize,
    rank: u32,
    before: usize,
    heads: &mut [u32],
    pairs: &mut [u32],
) -> usize
    ensures { EntersEntries entries.entry.kinds.now entries.entry.keys.now entries.entry.nodes.now lo hi rank before heads.old pairs.old
        result heads.new pairs.new }
{
    let mut count = before % LINKS;
    for e in (lo..hi).rev() {
        let node = index(get_or(entries.nodes, e, 0));
        if is_attribute(get_or(entries.kinds, node, 0)) {
            let symbol = symbol_of(get_or(entries.keys, e, 0));
            enter(heads, pairs, count, rank, symbol, node);
            count = (count + 1) % LINKS;
        }
    }
    count
}
