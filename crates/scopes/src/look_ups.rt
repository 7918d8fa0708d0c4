// What a symbol means in a scope, by the dictionary of a file: its keys and their chains. (The node of an entry stands in
// the column of nodes; a declaration's entry is its vertex.)
ghost use Rattle.std.specs.Prelude.{◌<◌};
ghost use Rattle.express.specs.Names.Scope.{declarations, own, items_of};
ghost use Rattle.scopes.specs.Entries.{sorts};
ghost use Rattle.scopes.specs.LookUp.{Meant, Means, UnderKey};

use crate::RADIX;
use crate::dictionary::key;
use index::dictionary::{find, next_of};

// No entry, the only one, or more than one.
// Form kept: what means nothing is looked up further in `use_meant` and is no error, so a Result<usize, ..> would stand for two of three cases.
#[derive(Clone, Copy, Debug, PartialEq, Eq)]
pub enum Meaning {
    Nothing,
    One(usize),
    Several,
}

// The entries with a key.
pub fn meant(keys: &[u64], heads: &[u32], next: &[u32], key: u64) -> Meaning
    ensures { Meant keys.now heads.now next.now key result }
{
    let found = find(keys, heads, next, key);
    let Some(e) = found else {
        return Meaning::Nothing;
    };
    let more = next_of(keys, next, e);
    let Some(_) = more else {
        return Meaning::One(e);
    };
    Meaning::Several
}

// What a symbol means in a scope among what is of a sort: nothing where no file has such a scope or symbol.
fn looked_up(
    keys: &[u64],
    heads: &[u32],
    next: &[u32],
    sort: u64,
    scope: usize,
    symbol: u32,
) -> Meaning
    requires { sort < sorts }
    ensures { UnderKey keys.now heads.now next.now sort scope symbol result }
{
    if RADIX <= scope as u64 || RADIX <= symbol as u64 {
        return Meaning::Nothing;
    }
    meant(keys, heads, next, key(sort, scope, symbol))
}

// The constant, type or entity of a schema: THE look-up of a name in a schema.
pub fn declaration_meant(
    keys: &[u64],
    heads: &[u32],
    next: &[u32],
    schema: usize,
    symbol: u32,
) -> Meaning
    ensures { Means keys.now heads.now next.now (λ t. declarations t schema symbol) result }
{
    looked_up(keys, heads, next, crate::DECLARATIONS, schema, symbol)
}

// The attribute or label of a declaration itself.
pub fn own_meant(keys: &[u64], heads: &[u32], next: &[u32], owner: usize, symbol: u32) -> Meaning
    ensures { Means keys.now heads.now next.now (λ t. own t owner symbol) result }
{
    looked_up(keys, heads, next, crate::MEMBERS, owner, symbol)
}

// The item of an enumeration type.
pub fn item_meant(
    keys: &[u64],
    heads: &[u32],
    next: &[u32],
    enumeration: usize,
    symbol: u32,
) -> Meaning
    ensures { Means keys.now heads.now next.now (λ t. items_of t enumeration symbol) result }
{
    looked_up(
        keys,
        heads,
        next,
        crate::ITEMS_OF_TYPES,
        enumeration,
        symbol,
    )
}
