// Inherited attributes: for each use, attribute and label of an entity that has supertypes, what its symbol means among the
// attributes of all that the entity reaches over supertypes. One search for each such entity; the attributes of what it reaches go
// into a table by symbol, under the entity's own stamp. They are found by the entries of the dictionary, among which those of a declaration
// stand together.
#![tactic(auto)]

ghost use Rattle.std.specs.Prelude.{◌≡◌, ℕ, ◌<◌, length};
ghost use Rattle.symbol_tables.specs.Entry.{says};
ghost use Rattle.symbol_tables.specs.Table.{symbol_in};
ghost use Rattle.inheritance.specs.Inheritance.{Inherits};
ghost use Rattle.inheritance.specs.Steps.{asks_by, StoresEach, Stores, inherits_by, NoneInherits, InheritsIn};

use attributes::{Entries, is_attribute};
use columns::{get_or, index, number, put};
use scopes::{both, either};

// What a file declares, by columns: its nodes, the entries of its dictionary, and the graph of its declarations.
#[derive(Clone, Copy)]
pub struct File<'a> {
    pub entries: Entries<'a>,
    pub tokens: &'a [u32],
    pub roles: &'a [u8],
    pub symbols: &'a [u32],
    pub first: &'a [u32],
    pub to: &'a [u32],
}

// The symbol of a node.
pub fn symbol(tokens: &[u32], symbols: &[u32], node: usize) -> u32
    ensures { result ≡ symbol_in tokens.now symbols.now node }
{
    get_or(symbols, index(get_or(tokens, node, 0)), 0)
}

// Is it a name in an expression, or an attribute or label? The role of such a name has the number of that of a rule with a label.
pub fn asks(kind: u8, role: u32) -> bool
    ensures { result ≡ asks_by kind role }
{
    let by_role = either(kind == codes::nodes::NAME, kind == codes::nodes::RULE);
    either(
        both(by_role, role == codes::roles::IN_EXPRESSION),
        is_attribute(kind),
    )
}

// What tells the meanings of symbols.
pub trait Meanings {
    ghost tells: { Self → ℕ → ℕ → Type 0 };

    fn meaning(&self, symbol: u32) -> u32
        ensures { tells self.now symbol result };
}

// Stores at each node from lo up to hi that asks what its symbol means.
pub fn store_meanings<M: Meanings>(
    file: File,
    lo: usize,
    hi: usize,
    meanings: &M,
    bound: &mut [u32],
)
    ensures { StoresEach file.entry.entries.kinds.now file.entry.roles.now
        (λ n x. M.tells meanings.now (symbol_in file.entry.tokens.now file.entry.symbols.now n) x) lo hi bound.old bound.new }
{
    for i in (lo..hi).rev() {
        if asks(
            get_or(file.entries.kinds, i, 0),
            get_or(file.roles, i, 0) as u32,
        ) {
            put(
                bound,
                i,
                meanings.meaning(symbol(file.tokens, file.symbols, i)),
            );
        }
    }
}

// The meanings that stand in a table under a stamp.
#[derive(Clone, Copy)]
struct Stamped<'a> {
    table: &'a [u32],
    stamp: u32,
}

impl Meanings for Stamped<'_> {
    ghost tells = { λ m symbol x. x ≡ says m.table.now m.stamp symbol };

    fn meaning(&self, symbol: u32) -> u32 {
        symbol_tables::meaning_of(self.table, self.stamp, symbol)
    }
}

// The same of what symbols mean under a stamp.
fn store_inherited(file: File, table: &[u32], stamp: u32, lo: usize, hi: usize, bound: &mut [u32])
    ensures { Stores file.entry.entries.kinds.now file.entry.tokens.now file.entry.roles.now file.entry.symbols.now table.now stamp lo hi
        bound.old bound.new }
{
    store_meanings(file, lo, hi, &Stamped { table, stamp }, bound);
}

// Is it an entity with supertypes?
pub fn inherits(file: File, node: usize, vertex: usize) -> bool
    ensures { result ≡ inherits_by file.entry.entries.kinds.now file.entry.first.now node vertex }
{
    vertex < file.first.len()
        && get_or(file.entries.kinds, node, 0) == codes::nodes::ENTITY
        && get_or(file.first, vertex, 0) < get_or(file.first, vertex + 1, 0)
}

// Stores at each use, attribute and label of a declaration what its symbol means among the attributes that the declaration inherits.
// The stamp of a vertex is one more.
fn inherit_in(
    file: File,
    v: usize,
    table: &mut [u32],
    mark: &mut [u32],
    queue: &mut [u32],
    bound: &mut [u32],
)
    requires { v < length file.first.now }
    ensures { InheritsIn file.entry.entries.kinds.now file.entry.tokens.now file.entry.roles.now file.entry.symbols.now file.entry.entries.keys.now
        file.entry.entries.nodes.now file.entry.first.now file.entry.to.now v table.old mark.old queue.old bound.old
        table.new mark.new bound.new }
{
    let extent = scopes::declaration(file.entries.keys, file.entries.nodes, v);
    if inherits(file, extent.node, v) {
        let stamp = number(v + 1);
        let reached = graph::search(file.first, file.to, v, stamp, mark, queue);
        attributes::collect_queued(file.entries, queue, reached, file.first.len(), stamp, table);
        store_inherited(file, table, stamp, extent.from, extent.node, bound);
    }
}

// The number behind the last declaration that inherits; 0 where none does.
pub fn inheriting(file: File) -> usize
    ensures { NoneInherits file.entry.entries.kinds.now file.entry.entries.nodes.now file.entry.first.now result }
{
    for v in (0..file.first.len().saturating_sub(1)).rev() {
        if inherits(file, index(get_or(file.entries.nodes, v, 0)), v) {
            return v + 1;
        }
    }
    0
}

// All declarations, from the last that inherits to the first. Where one does, the table gets its offsets before that, and all marks are cleared.
fn inherit_declarations(
    file: File,
    table: &mut [u32],
    mark: &mut [u32],
    queue: &mut [u32],
    bound: &mut [u32],
)
    ensures { Inherits file.entry.entries.kinds.now file.entry.tokens.now file.entry.roles.now file.entry.symbols.now file.entry.entries.keys.now
        file.entry.entries.nodes.now file.entry.first.now file.entry.to.now table.old mark.old queue.old bound.old
        bound.new }
{
    let end = inheriting(file);
    if end == 0 {
        return;
    }
    attributes::store_offsets(file.entries.nodes, file.first.len(), table);
    columns::clear(mark, 0, 0);
    for v in (0..end).rev() {
        inherit_in(file, v, table, mark, queue, bound);
    }
}

// Stores at each use, attribute and label what its symbol means among the attributes that its owner inherits. As many entries of the table are
// used as there are symbols and offsets of the graph, and as many marks as there are such offsets.
pub fn inherit_all(
    file: File,
    table: &mut [u32],
    mark: &mut [u32],
    queue: &mut [u32],
    bound: &mut [u32],
)
    ensures { Inherits file.entry.entries.kinds.now file.entry.tokens.now file.entry.roles.now file.entry.symbols.now file.entry.entries.keys.now
        file.entry.entries.nodes.now file.entry.first.now file.entry.to.now table.old mark.old queue.old bound.old
        bound.new }
{
    let offsets = file.first.len();
    let named = file.symbols.len().min(table.len());
    let entries = named + offsets.min(table.len().saturating_sub(named));
    let marks = offsets.min(mark.len());
    inherit_declarations(
        file,
        &mut table[..entries],
        &mut mark[..marks],
        queue,
        bound,
    );
}
