// The keys of the dictionary of a file, which stands in lent columns: a key and a node for each entry, and the chains of the keys.
ghost use Rattle.std.specs.Prelude.{◌≡◌, ◌%◌};
ghost use Rattle.scopes.specs.Entries.{sorts, radix, key_of};
ghost use Rattle.scopes.specs.Preparation.{scope_by};

use crate::{Here, RADIX};

// The columns do not fit each other, or are too short for the dictionary.
#[derive(Clone, Copy, Debug, PartialEq, Eq)]
pub struct Unfit;

// A sort, a scope and a symbol as one number, never 0 for a sort; sorts and scopes are below their bounds.
pub fn key(sort: u64, scope: usize, symbol: u32) -> u64
    ensures { result ≡ key_of (sort % sorts) (scope % radix) symbol }
{
    (sort % crate::SORTS * RADIX + scope as u64 % RADIX) * RADIX + symbol as u64
}

// The scope in which what is declared must differ from all of its sort: the file, the schema, or the owner.
pub fn scope(sort: u64, here: Here) -> usize
    ensures { result ≡ scope_by sort here.schema here.owner }
{
    if sort <= crate::SCHEMAS {
        0
    } else if sort == crate::DECLARATIONS {
        here.schema
    } else {
        here.owner
    }
}
