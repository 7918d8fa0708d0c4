// The attributes of declarations: by the entries of the dictionary, among which those of a declaration stand together, they are put into a table
// by symbol under a stamp.
#![tactic(auto)]

ghost use Rattle.std.specs.Prelude.{◌≡◌, ◌%◌};
ghost use Rattle.scopes.specs.Entries.{radix};
ghost use Rattle.attributes.specs.Attributes.{start_in, Back, StoresOffsets, attribute_kind, CollectsEntries, CollectsQueued};

use columns::{get_or, index, number, put};

// The entries of the dictionary of a file, and the kinds of its nodes.
#[derive(Clone, Copy)]
pub struct Entries<'a> {
    pub kinds: &'a [u8],
    pub keys: &'a [u64],
    pub nodes: &'a [u32],
}

pub fn is_attribute(kind: u8) -> bool
    ensures { result ≡ attribute_kind kind }
{
    scopes::either(
        kind == codes::nodes::ATTRIBUTE_NAME,
        kind == codes::nodes::DERIVED_ATTRIBUTE,
    )
}

// The first node of a declaration, by its number: that behind the declaration before it.
pub fn start(entry_nodes: &[u32], vertex: usize) -> usize
    ensures { result ≡ start_in entry_nodes.now vertex }
{
    if vertex == 0 {
        0
    } else {
        index(get_or(entry_nodes, vertex - 1, 0)) + 1
    }
}

// Back from the entry hi as long as no node is before one, and not below the entry low.
pub fn back(entry_nodes: &[u32], low: usize, hi: usize, from: usize) -> usize
    ensures { Back entry_nodes.now low hi from result }
{
    for e in (low..hi).rev() {
        if index(get_or(entry_nodes, e, 0)) < from {
            return e + 1;
        }
    }
    low.min(hi)
}

// Clears a table, and stores the offsets at its end: for each declaration, and for the end of the last, the first entry behind the
// declarations whose node is not before its range. These entries are in the order of their nodes.
pub fn store_offsets(entry_nodes: &[u32], offsets: usize, table: &mut [u32])
    ensures { StoresOffsets entry_nodes.now offsets table.old table.new }
{
    columns::clear(table, 0, 0);
    let declarations = offsets.saturating_sub(1);
    let base = table.len().saturating_sub(offsets);
    let mut e = entry_nodes.len();
    for v in (0..offsets).rev() {
        e = back(entry_nodes, declarations, e, start(entry_nodes, v));
        put(table, base + v, number(e));
    }
}

// The symbol of a key.
pub fn symbol_of(key: u64) -> u32
    ensures { result ≡ key % radix }
{
    (key % scopes::RADIX) as u32
}

// The attributes among the entries from lo up to hi, put into a table under a stamp.
fn collect_entries(entries: Entries, lo: usize, hi: usize, stamp: u32, table: &mut [u32])
    ensures { CollectsEntries entries.entry.kinds.now entries.entry.keys.now entries.entry.nodes.now lo hi stamp table.old
        table.new }
{
    for e in (lo..hi).rev() {
        let node = index(get_or(entries.nodes, e, 0));
        if is_attribute(get_or(entries.kinds, node, 0)) {
            let symbol = symbol_of(get_or(entries.keys, e, 0));
            symbol_tables::add(table, stamp, symbol, node);
        }
    }
}

// The attributes of the first declarations in a queue, so many, put into a table under a stamp; so many offsets are at the end of the table.
pub fn collect_queued(
    entries: Entries,
    queue: &[u32],
    queued: usize,
    offsets: usize,
    stamp: u32,
    table: &mut [u32],
)
    ensures { CollectsQueued entries.entry.kinds.now entries.entry.keys.now entries.entry.nodes.now queue.now queued offsets stamp
        table.old table.new }
{
    let base = table.len().saturating_sub(offsets);
    for k in 0..queued {
        let offset = base + index(get_or(queue, k, 0));
        let lo = index(get_or(table, offset, 0));
        let hi = index(get_or(table, offset + 1, 0));
        collect_entries(entries, lo, hi, stamp, table);
    }
}
