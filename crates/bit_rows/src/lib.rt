// Bits in a column of words.
#![tactic(auto)]

ghost use Rattle.std.specs.Prelude.{◌≡◌};
ghost use Rattle.bit_rows.specs.Bits.{bit, with_bit};

use columns::{get_or, put};

// The bits of a word.
pub const WORD: usize = 32;

// Is a bit set, of all bits of a column?
pub fn has(rows: &[u32], i: usize) -> bool
    ensures { result ≡ bit rows.now i }
{
    (get_or(rows, i / WORD, 0) >> ((i % WORD) as u32)) % 2 == 1
}

// Sets a bit; past the end of the column nothing changes.
pub fn set(rows: &mut [u32], i: usize)
    ensures { rows.new ≡ with_bit rows.old i }
{
    let word = get_or(rows, i / WORD, 0) | (1 << ((i % WORD) as u32));
    put(rows, i / WORD, word);
}
