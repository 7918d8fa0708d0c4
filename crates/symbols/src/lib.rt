// Interning: for each identifier the least identifier that is spelled alike, letters without case.
#![tactic(auto)]

ghost use Rattle.std.specs.Prelude.{◌≡◌};
ghost use Rattle.index.specs.Room.{enough};
ghost use Rattle.symbols.specs.Interning.{Interns, FindsSymbol};
ghost use Rattle.symbols.specs.Steps.{ReadyToEnter, Enters, Fills, ReadyToFill};

use chains::{Names, Place};
use columns::{clear, get_or, number};
use index::{Short, scratch};

// Stores the symbol of an identifier. Only the first of a spelling goes on a chain, so that a chain is no longer than the
// spellings of its bucket.
fn enter(
    bytes: &[u8],
    starts: &[u32],
    lengths: &[u32],
    i: usize,
    symbols: &mut [u32],
    heads: &mut [u32],
    next: &mut [u32],
)
    requires { ReadyToEnter bytes.now starts.now lengths.now symbols.old heads.old next.old i }
    ensures { Enters bytes.now starts.now lengths.now i symbols.old heads.old next.old
        symbols.new heads.new next.new }
{
    let names = Names {
        bytes,
        starts,
        lengths,
        heads,
        next,
    };
    match names.token_place(i) {
        Place::Known(k) => {
            symbols[i] = number(k);
        }
        Place::Free(b) => {
            let head = heads[b];
            symbols[i] = number(i);
            next[i] = head;
            heads[b] = number(i + 1);
        }
    }
}

// The symbol of each token, in text order; what is no identifier has its own number, and is on no chain.
fn fill(
    bytes: &[u8],
    starts: &[u32],
    lengths: &[u32],
    terminals: &[u8],
    symbols: &mut [u32],
    heads: &mut [u32],
    next: &mut [u32],
)
    requires { ReadyToFill starts.now lengths.now symbols.old heads.old next.old }
    ensures { Fills bytes.now starts.now lengths.now terminals.now symbols.old next.old
        symbols.new heads.new next.new }
{
    for i in 0..starts.len() {
        // Past the end of the column of terminals is no identifier.
        let terminal = get_or(terminals, i, codes::NONE);
        if terminal == codes::IDENTIFIER {
            enter(bytes, starts, lengths, i, symbols, heads, next);
        } else {
            symbols[i] = number(i);
        }
    }
}

// Is there room for so many symbols?
fn room(starts: usize, lengths: usize, symbols: usize, heads: usize, next: usize) -> bool
    ensures { result ≡ enough starts lengths symbols heads next }
{
    starts <= lengths && starts <= symbols && scratch(starts, heads, next)
}

// Stores each token's symbol, and leaves the chains in `heads` and `next`, for `symbol_of`.
pub fn intern(
    bytes: &[u8],
    starts: &[u32],
    lengths: &[u32],
    terminals: &[u8],
    symbols: &mut [u32],
    heads: &mut [u32],
    next: &mut [u32],
) -> Result<(), Short>
    ensures { Interns bytes.now starts.now lengths.now terminals.now symbols.old heads.old
        next.old result symbols.new heads.new next.new }
{
    if !room(
        starts.len(),
        lengths.len(),
        symbols.len(),
        heads.len(),
        next.len(),
    ) {
        return Err(Short);
    }
    clear(heads, 0, 0);
    fill(bytes, starts, lengths, terminals, symbols, heads, next);
    Ok(())
}

// The symbol of a word, by the chains that `intern` left: the least identifier that is spelled like it.
pub fn symbol_of(
    bytes: &[u8],
    starts: &[u32],
    lengths: &[u32],
    heads: &[u32],
    next: &[u32],
    word: &[u8],
) -> Option<usize>
    ensures { FindsSymbol bytes.now starts.now lengths.now heads.now next.now word.now result }
{
    if heads.is_empty() {
        return None;
    }
    let names = Names {
        bytes,
        starts,
        lengths,
        heads,
        next,
    };
    match names.word_place(word) {
        Place::Known(k) => Some(k),
        Place::Free(_) => None,
    }
}
