// Strings: joining, by their lengths, and comparing.
#![tactic(auto)]

ghost use Rattle.std.specs.Prelude.{◌≡◌, replicate};
ghost use Rattle.express.specs.Semantics.Strings.{join_strings, compare_bytes};
ghost use Rattle.values.specs.Meaning.{ordering_of};
ghost use Rattle.strings.specs.Meaning.{joined_answer};

use std::cmp::Ordering;
use values::End;

// Two strings joined, by their lengths: whether they can be joined does not depend on their bytes. A string has at
// most 255 bytes, as many as a `u8` counts.
pub fn join(a: u8, b: u8) -> Result<u8, End>
    ensures { joined_answer result ≡ join_strings (replicate a 0) (replicate b 0) }
{
    a.checked_add(b).ok_or(End::OutOfRange)
}

// How many bytes are compared one by one: most strings that differ do so in their first bytes, and a comparison of slices takes as long to begin as these.
const EARLY: usize = 8;

// From the left as far as both go; then the shorter is less.
pub fn compare(a: &[u8], b: &[u8]) -> Ordering
    ensures { ordering_of result ≡ compare_bytes a.now b.now }
{
    let l = a.len().min(b.len());
    for i in 0..l.min(EARLY) {
        let x = a[i];
        let y = b[i];
        if x != y {
            return x.cmp(&y);
        }
    }
    a[..l].cmp(&b[..l]).then(a.len().cmp(&b.len()))
}
