// The items of a schema, in a table by symbol. A file is gone through from its last declaration to its first; where another schema
// begins, its items are entered under a new stamp, so that nothing is cleared.
#![tactic(auto)]

ghost use Rattle.std.specs.Prelude.{◌≡◌};
ghost use Rattle.symbol_tables.specs.Entry.{says};
ghost use Rattle.symbol_tables.specs.Table.{symbol_in};
ghost use Rattle.schema_items.specs.Items.{Tabulates, Begins, Turns};

use columns::{get_or, index};

// Of which schema the items stand in a table, if of any, and under which stamp.
#[derive(Clone, Copy)]
pub struct Tabled {
    pub schema: Option<usize>,
    pub stamp: u32,
}

// The items of a schema under a stamp: those below its node.
fn tabulate_items(
    kinds: &[u8],
    tokens: &[u32],
    sizes: &[u32],
    symbols: &[u32],
    schema: usize,
    stamp: u32,
    table: &mut [u32],
)
    ensures { Tabulates kinds.now tokens.now sizes.now symbols.now schema stamp table.old table.new }
{
    let from = schema.saturating_sub(index(get_or(sizes, schema, 0)).saturating_sub(1));
    symbol_tables::add_range(
        kinds,
        tokens,
        symbols,
        codes::nodes::ITEM,
        codes::nodes::ITEM,
        from,
        schema,
        stamp,
        table,
    );
}

// A table without entries.
pub fn begin(table: &mut [u32]) -> Tabled
    ensures { Begins result table.new }
{
    columns::clear(table, 0, 0);
    Tabled {
        schema: None,
        stamp: 0,
    }
}

// The items of a schema: they stand in the table, or are entered under a new stamp. Behind the last node is none: a table without entries has its items.
pub fn turn_to(
    kinds: &[u8],
    tokens: &[u32],
    sizes: &[u32],
    symbols: &[u32],
    schema: usize,
    stamp: u32,
    before: Tabled,
    table: &mut [u32],
) -> Tabled
    ensures { Turns kinds.now tokens.now sizes.now symbols.now schema stamp before table.old result table.new }
{
    if before.schema.unwrap_or(kinds.len()) == schema {
        return before;
    }
    tabulate_items(kinds, tokens, sizes, symbols, schema, stamp, table);
    let schema = Some(schema);
    Tabled { schema, stamp }
}

// What the symbol of a node means among the items that stand in the table under a stamp.
pub fn item_at(tokens: &[u32], symbols: &[u32], table: &[u32], stamp: u32, node: usize) -> u32
    ensures { result ≡ says table.now stamp (symbol_in tokens.now symbols.now node) }
{
    symbol_tables::meaning_of(
        table,
        stamp,
        get_or(symbols, index(get_or(tokens, node, 0)), 0),
    )
}
