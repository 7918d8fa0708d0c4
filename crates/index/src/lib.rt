// A dictionary over keys, in expected linear time. Chains stand in lent scratch: a number falls into one of the buckets, as
// many as `heads` is long; `heads` holds where a bucket's chain begins, `next` how it goes on; a link is an entry plus one, and
// 0 ends a chain.
#![tactic(auto)]

pub mod dictionary;

ghost use Rattle.std.specs.Prelude.{◌≡◌, ◌<◌};
ghost use Rattle.index.specs.Bucket.{mixed, InBucket};
ghost use Rattle.index.specs.Room.{fits};

// Numbers of 32 bits are below this one, which stands here twice, the second as a count; and a large odd number to multiply by, 2 ^ 32 over the golden ratio.
pub const WORD: u64 = 4294967296;

pub const RANGE: usize = 4294967296;

pub const FACTOR: u64 = 2654435761;

// A link is an entry plus one, of 32 bits: there are fewer entries than this.
const ENTRIES: usize = 4294967295;

// The scratch or a column has too little room for the work.
#[derive(Clone, Copy, Debug, PartialEq, Eq)]
pub struct Short;

// Does the scratch have room for chains of so many entries?
pub fn scratch(count: usize, heads: usize, next: usize) -> bool
    ensures { result ≡ fits count heads next }
{
    heads != 0 && count <= next && count < ENTRIES
}

// A number of 32 bits, in the high ones of which all of x has a say.
fn mix(x: u64) -> u64
    ensures { result ≡ mixed x }
{
    (x % WORD + x / WORD) % WORD * FACTOR % WORD
}

// The bucket that a number falls into: small numbers, as symbols are, have buckets of their own.
fn bucket(x: u64, buckets: usize) -> usize
    requires { 0 < buckets }
    ensures { InBucket buckets x result }
{
    if x < buckets as u64 {
        return x as usize;
    }
    (mix(x) * (buckets.min(RANGE) as u64) / WORD) as usize
}
