// Inherited attributes by rows of bits: which entity reaches which stands in rows, the attributes of all that is reached stand in chains by symbol, and each
// node that asks walks the chain of its symbol with the row of its owner. Where that does not fit what is lent, each entity searches for itself.
#![tactic(auto)]

ghost use Rattle.std.specs.Prelude.{◌≡◌, ◌+◌, ◌*◌, ◌≤◌, ◌<◌, length, get_or};
ghost use Rattle.columns.specs.Column.{cleared_before};
ghost use Rattle.graph.specs.Graph.{Tells};
ghost use Rattle.inheritance.specs.Inheritance.{Inherits};
ghost use Rattle.bit_rows.specs.Bits.{word};
ghost use Rattle.ancestors.specs.Rows.{width_limit};
ghost use Rattle.attribute_chains.specs.Chains.{FindsAmong};
ghost use Rattle.row_inheritance.specs.Ranks.{RanksEntities};
ghost use Rattle.row_inheritance.specs.Steps.{declaration_limit, RanksDeclarations, RelatesEntities, ChainsAttributes, StoresFound, StoresInherited, RowsFit, InheritsRows};

use ancestors::{WIDEST, relate};
use attribute_chains::{LINKS, enter_entries, found};
use attributes::{Entries, back, start};
use bit_rows::{WORD, has};
use columns::{get_or, index, number, put};
use inheritance::{File, Meanings, inheriting, inherits, store_meanings};
use scopes::both;

// Numbers the entities from 1 on in their order; other declarations get 0. How many there are.
fn rank_entities(kinds: &[u8], entry_nodes: &[u32], ranks: &mut [u32]) -> usize
    ensures { RanksEntities kinds.now entry_nodes.now ranks.old result ranks.new }
{
    let mut count = 0;
    for v in 0..ranks.len() {
        let node = index(get_or(entry_nodes, v, 0));
        if get_or(kinds, node, 0) == codes::nodes::ENTITY {
            count += 1;
            put(ranks, v, number(count));
        } else {
            put(ranks, v, 0);
        }
    }
    count
}

// The ranks of all declarations, behind so many symbols in a table. How many entities there are.
fn rank_declarations(
    kinds: &[u8],
    entry_nodes: &[u32],
    symbols: usize,
    declarations: usize,
    table: &mut [u32],
) -> usize
    requires { (declarations < declaration_limit) × (symbols + declarations ≤ length table.old) }
    ensures { RanksDeclarations kinds.now entry_nodes.now symbols declarations result table.new }
{
    rank_entities(
        kinds,
        entry_nodes,
        &mut table[symbols..symbols + declarations],
    )
}

// The places of all declarations, two words for each at the front of a table.
fn order_declarations(first: &[u32], to: &[u32], declarations: usize, table: &mut [u32])
    requires { 2 * declarations ≤ length table.old }
{
    orders::places(first, to, &mut table[..2 * declarations]);
}

// Zeros for so many symbols.
fn clear_heads(symbols: usize, table: &mut [u32])
    requires { symbols ≤ length table.old }
    ensures { table.new ≡ cleared_before 0 symbols table.old }
{
    columns::clear(&mut table[..symbols], 0, 0);
}

// The rows of so many entities, by the ranks and the order in a table: the words of a row, or none where they do not fit, or the order is none.
fn relate_entities(
    first: &[u32],
    to: &[u32],
    symbols: usize,
    declarations: usize,
    entities: usize,
    table: &[u32],
    rows: &mut [u32],
) -> Option<usize>
    requires { (entities ≤ declarations) × (declarations < declaration_limit) × (2 * declarations ≤ symbols) × (symbols + declarations ≤ length table.now) }
    ensures { RelatesEntities first.now to.now symbols declarations entities table.now result rows.new }
{
    let width = entities / WORD + 1;
    let needed = (entities + 1) * width;
    if rows.len() < needed {
        return None;
    }
    let ranks = &table[symbols..symbols + declarations];
    let order = &table[declarations..2 * declarations];
    if relate(first, to, ranks, order, width, &mut rows[..needed]) {
        Some(width)
    } else {
        None
    }
}

// Chains the attributes of the entities that are reached, by the bits of row 0. The table has so many heads of chains, one for each symbol and 0 before, and
// behind them the ranks of so many declarations. How many are chained: if that is more than fit, the chains are none.
fn chain_attributes(
    entries: Entries,
    rows: &[u32],
    symbols: usize,
    declarations: usize,
    table: &mut [u32],
    pairs: &mut [u32],
) -> usize
    requires { symbols + declarations ≤ length table.old }
    ensures { ChainsAttributes entries.entry.kinds.now entries.entry.keys.now entries.entry.nodes.now rows.now symbols declarations table.old pairs.old
        result table.new pairs.new }
{
    let mut count = 0;
    let mut e = back(
        entries.nodes,
        declarations,
        entries.nodes.len(),
        start(entries.nodes, declarations),
    );
    for v in (0..declarations).rev() {
        let hi = e;
        e = back(entries.nodes, declarations, hi, start(entries.nodes, v));
        let rank = get_or(table, symbols + v, 0);
        if both(rank != 0, has(rows, index(rank))) {
            count = enter_entries(entries, e, hi, rank, count, table, pairs);
        }
    }
    count
}

// The first bit of the row of a rank.
fn row_start(rank: u32, width: usize) -> usize
    ensures { width ≤ width_limit → result ≡ rank * width * word }
{
    index(rank) * width.min(WIDEST) * WORD
}

// The meanings of symbols among the attributes whose bits are set in a row: from the heads of their chains on.
#[derive(Clone, Copy)]
struct Chained<'a> {
    heads: &'a [u32],
    rows: &'a [u32],
    pairs: &'a [u32],
    base: usize,
}

impl Meanings for Chained<'_> {
    ghost tells = { λ m symbol x. FindsAmong m.rows.now m.pairs.now m.base (get_or m.heads.now symbol 0) x };

    fn meaning(&self, symbol: u32) -> u32 {
        found(
            self.rows,
            self.pairs,
            self.base,
            get_or(self.heads, index(symbol), 0),
        )
    }
}

// Stores at each node from lo up to hi that asks what its symbol means among the attributes whose bits are set in a row.
fn store_found(
    file: File,
    heads: &[u32],
    rows: &[u32],
    pairs: &[u32],
    base: usize,
    lo: usize,
    hi: usize,
    bound: &mut [u32],
)
    ensures { StoresFound file.entry.entries.kinds.now file.entry.tokens.now file.entry.roles.now file.entry.symbols.now heads.now rows.now
        pairs.now base lo hi bound.old bound.new }
{
    let meanings = Chained {
        heads,
        rows,
        pairs,
        base,
    };
    store_meanings(file, lo, hi, &meanings, bound);
}

// The same for all declarations that inherit, each with the row of its rank; ranks stand in the table behind the heads of all symbols.
fn store_declarations(
    file: File,
    table: &[u32],
    rows: &[u32],
    pairs: &[u32],
    width: usize,
    bound: &mut [u32],
)
    ensures { StoresInherited file.entry.entries.kinds.now file.entry.tokens.now file.entry.roles.now file.entry.symbols.now
        file.entry.entries.keys.now file.entry.entries.nodes.now file.entry.first.now table.now rows.now pairs.now width bound.old bound.new }
{
    for v in (0..file.first.len().saturating_sub(1)).rev() {
        let extent = scopes::declaration(file.entries.keys, file.entries.nodes, v);
        if inherits(file, extent.node, v) {
            let rank = get_or(table, file.symbols.len() + v, 0);
            let base = row_start(rank, width);
            store_found(
                file,
                table,
                rows,
                pairs,
                base,
                extent.from,
                extent.node,
                bound,
            );
        }
    }
}

// One more than the most declarations.
const DECLARATIONS: usize = 32768;

// Do the order and the ranks fit, and are links small enough, for so many symbols, offsets of the graph and entries of the dictionary?
fn rows_fit(symbols: usize, offsets: usize, entries: usize, table: usize) -> bool
    ensures { Tells (RowsFit symbols offsets entries table) result }
{
    if offsets == 0 || DECLARATIONS <= offsets {
        return false;
    }
    let declarations = offsets - 1;
    2 * declarations <= symbols
        && symbols <= table
        && declarations <= table - symbols
        && entries.saturating_sub(declarations) < LINKS
}

// Stores what each node that asks inherits, by rows of bits in one column and chains in another; or false, where these do not fit, and nothing is stored.
fn inherit_fitting(
    file: File,
    table: &mut [u32],
    rows: &mut [u32],
    pairs: &mut [u32],
    bound: &mut [u32],
) -> bool
    requires { RowsFit (length file.symbols.now) (length file.first.now) (length file.entries.nodes.now) (length table.old) }
    ensures { InheritsRows file.entry.entries.kinds.now file.entry.tokens.now file.entry.roles.now file.entry.symbols.now file.entry.entries.keys.now
        file.entry.entries.nodes.now file.entry.first.now file.entry.to.now table.old rows.old pairs.old bound.old result
        bound.new }
{
    let named = file.symbols.len();
    let n = file.first.len() - 1;
    order_declarations(file.first, file.to, n, table);
    let entities = rank_declarations(file.entries.kinds, file.entries.nodes, named, n, table);
    let Some(width) = relate_entities(file.first, file.to, named, n, entities, table, rows) else {
        return false;
    };
    clear_heads(named, table);
    let chained = chain_attributes(file.entries, rows, named, n, table, pairs);
    if pairs.len() / 2 < chained {
        return false;
    }
    store_declarations(file, table, rows, pairs, width, bound);
    true
}

// The same for columns of any lengths.
fn inherit_rows(
    file: File,
    table: &mut [u32],
    rows: &mut [u32],
    pairs: &mut [u32],
    bound: &mut [u32],
) -> bool
    ensures { InheritsRows file.entry.entries.kinds.now file.entry.tokens.now file.entry.roles.now file.entry.symbols.now file.entry.entries.keys.now
        file.entry.entries.nodes.now file.entry.first.now file.entry.to.now table.old rows.old pairs.old bound.old result
        bound.new }
{
    if rows_fit(
        file.symbols.len(),
        file.first.len(),
        file.entries.nodes.len(),
        table.len(),
    ) {
        return inherit_fitting(file, table, rows, pairs, bound);
    }
    false
}

// Stores at each use, attribute and label what its symbol means among the attributes that its owner inherits: by rows where they fit, else by a search for
// each entity.
pub fn inherit_all(
    kinds: &[u8],
    tokens: &[u32],
    roles: &[u8],
    symbols: &[u32],
    entry_keys: &[u64],
    entry_nodes: &[u32],
    first: &[u32],
    to: &[u32],
    table: &mut [u32],
    mark: &mut [u32],
    queue: &mut [u32],
    bound: &mut [u32],
)
    ensures { Inherits kinds.now tokens.now roles.now symbols.now entry_keys.now
        entry_nodes.now first.now to.now table.old mark.old queue.old bound.old
        bound.new }
{
    let entries = Entries {
        kinds,
        keys: entry_keys,
        nodes: entry_nodes,
    };
    let file = File {
        entries,
        tokens,
        roles,
        symbols,
        first,
        to,
    };
    if inheriting(file) == 0 {
        return;
    }
    if inherit_rows(file, table, mark, queue, bound) {
        return;
    }
    inheritance::inherit_all(file, table, mark, queue, bound);
}
