// Where a word is on the chains of identifiers: the token that is spelled like it, or the bucket that it goes into.
#![tactic(auto)]

ghost use Rattle.std.specs.Prelude.{◌≡◌, map, true, ◌+◌, ◌≤◌, ◌<◌, min, length, get_or};
ghost use Rattle.express.specs.Tokens.Bytes.{lower, same};
ghost use Rattle.express.specs.Tokens.Spelling.{spelling};
ghost use Rattle.index.specs.Bucket.{InRange};
ghost use Rattle.spellings.specs.Hash.{hash_of};
ghost use Rattle.chains.specs.Rounds.{low_half};
ghost use Rattle.chains.specs.Steps.{Along, Lined, lined_with, Leads, place_by, Places, PlacesLater, PlacesToken, PlacesWord};

use columns::index;

// A chain with so many entries is full: whoever falls into its bucket goes on to that of the next round.
const FULL: usize = 8;

// So many of the later rounds come before the last, whose chain takes all that come to it. At most an eighth of the chains
// is full where there are as many buckets as names: few names come that far, and to find them takes long.
const LATER: usize = 6;

// What a walk along a chain met: a token that is spelled like the word, or none, and whether the chain has room.
#[derive(Clone, Copy, Debug, PartialEq, Eq)]
enum Met {
    At(usize),
    Full,
    Room,
}

// Where a word is: the token that is spelled so, or the bucket that it goes into.
// Form kept: (d) neither is a failure nor an absence, as `Err(bucket)` or `None` would say of `Free`.
#[derive(Clone, Copy, Debug, PartialEq, Eq)]
pub enum Place {
    Known(usize),
    Free(usize),
}

// The bucket of a number of 32 bits.
fn range(h: u64, buckets: usize) -> usize
    requires { (h < 4294967296) × (0 < buckets) }
    ensures { InRange buckets h result }
{
    (h * (buckets.min(index::RANGE) as u64) / index::WORD) as usize
}

// Where a word is that fell into a bucket: it goes there, where it was not met.
fn placed(met: Met, b: usize) -> Place
    ensures { result ≡ place_by met b }
{
    match met {
        Met::At(k) => Place::Known(k),
        Met::Full | Met::Room => Place::Free(b),
    }
}

// The bucket of a word in a later round, by its number there.
fn later_bucket(h: u64, buckets: usize) -> usize
    requires { 0 < buckets }
    ensures { InRange buckets (low_half h) result }
{
    range(h % index::WORD, buckets)
}

// Has token i its start, its length and its link, and is there a bucket?
fn lined(starts: usize, lengths: usize, heads: usize, next: usize, i: usize) -> bool
    ensures { result ≡ lined_with starts lengths heads next i }
{
    i < starts.min(lengths.min(next)) && 0 < heads
}

// The tokens of a text, and the chains of the names among them: where the chain of a bucket begins, and how it goes on.
#[derive(Clone, Copy)]
pub struct Names<'a> {
    pub bytes: &'a [u8],
    pub starts: &'a [u32],
    pub lengths: &'a [u32],
    pub heads: &'a [u32],
    pub next: &'a [u32],
}

impl<'a> Names<'a> {
    // Where a token begins and ends, as far as it lies in the bytes.
    fn begin(&self, i: usize) -> usize
        requires { i < length self.now.starts.now }
        ensures { result ≡ min (get_or self.now.starts.now i 0) (length self.now.bytes.now) }
    {
        index(self.starts[i]).min(self.bytes.len())
    }

    fn end(&self, i: usize) -> usize
        requires { (i < length self.now.starts.now) × (i < length self.now.lengths.now) }
        ensures { result ≡ min (get_or self.now.starts.now i 0 + get_or self.now.lengths.now i 0) (length self.now.bytes.now) }
    {
        (index(self.starts[i]) + index(self.lengths[i])).min(self.bytes.len())
    }

    // The bucket of a token's spelling.
    fn token_bucket(&self, i: usize) -> usize
        requires { (i < length self.now.starts.now) × (i < length self.now.lengths.now) × (0 < length self.now.heads.now) }
        ensures { InRange (length self.now.heads.now) (hash_of (spelling self.now.bytes.now self.now.starts.now self.now.lengths.now i)) result }
    {
        let h = spellings::hash_at(self.bytes, index(self.starts[i]), index(self.lengths[i]));
        range(h, self.heads.len())
    }

    // Is token k spelled like a word?
    fn spelled(&self, k: usize, word: &[u8]) -> bool
        requires { (k < length self.now.starts.now) × (k < length self.now.lengths.now) }
        ensures { result ≡ same (spelling self.now.bytes.now self.now.starts.now self.now.lengths.now k) (map lower word.now) }
    {
        let from = self.begin(k);
        let to = self.end(k);
        spellings::alike(&self.bytes[from..to], word)
    }

    // The token on a chain that is spelled like a word, or whether the chain has room; links that do not fall, or lead past the limit, end the chain.
    fn along(&self, word: &[u8], limit: usize, first: usize) -> Met
        requires { Lined self.now.bytes.now self.now.starts.now self.now.lengths.now self.now.next.now limit }
        ensures { Along self.now.bytes.now self.now.starts.now self.now.lengths.now self.now.next.now (map lower word.now) limit first result }
    {
        let mut below = limit;
        let mut link = first;
        let mut passed = 0;
        while 0 < link {
            let k = link - 1;
            if below <= k {
                return Met::Room;
            }
            if self.spelled(k, word) {
                return Met::At(k);
            }
            below = k;
            link = index(self.next[k]);
            passed += 1;
        }
        if passed < FULL {
            return Met::Room;
        }
        Met::Full
    }

    // The same on the chain of a bucket.
    fn in_bucket(&self, word: &[u8], limit: usize, b: usize) -> Met
        requires { Lined self.now.bytes.now self.now.starts.now self.now.lengths.now self.now.next.now limit × (b < length self.now.heads.now) }
        ensures { Along self.now.bytes.now self.now.starts.now self.now.lengths.now self.now.next.now (map lower word.now) limit
            (get_or self.now.heads.now b 0) result }
    {
        self.along(word, limit, index(self.heads[b]))
    }

    // Where a word is, by the later rounds: its chain in the first one was full, and it was not on it.
    fn later_place(&self, word: &[u8], limit: usize) -> Place
        requires { Lined self.now.bytes.now self.now.starts.now self.now.lengths.now self.now.next.now limit × (0 < length self.now.heads.now) }
        ensures { PlacesLater self.now.bytes.now self.now.starts.now self.now.lengths.now self.now.heads.now self.now.next.now
            (map lower word.now) limit result }
    {
        let mut h = spellings::long_hash(word);
        for _left in (0..LATER).rev() {
            let b = later_bucket(h, self.heads.len());
            let met = self.in_bucket(word, limit, b);
            let Met::Full = met else {
                return placed(met, b);
            };
            h = spellings::stir(h, 0);
        }
        let b = later_bucket(h, self.heads.len());
        placed(self.in_bucket(word, limit, b), b)
    }

    // Where a word is that falls into a bucket in the first round.
    fn place_from(&self, word: &[u8], limit: usize, b: usize) -> Place
        requires { Lined self.now.bytes.now self.now.starts.now self.now.lengths.now self.now.next.now limit
            × InRange (length self.now.heads.now) (hash_of (map lower word.now)) b }
        ensures { Places self.now.bytes.now self.now.starts.now self.now.lengths.now self.now.heads.now self.now.next.now
            (map lower word.now) limit result }
    {
        let met = self.in_bucket(word, limit, b);
        let Met::Full = met else {
            return placed(met, b);
        };
        self.later_place(word, limit)
    }

    // Does a link lead to a token before token i that is surely spelled like it? So does the head of a chain for most names.
    fn leads(&self, i: usize, first: usize) -> bool
        requires { (i < length self.now.starts.now) × (i < length self.now.lengths.now) }
        ensures { result ≡ true → Leads self.now.bytes.now self.now.starts.now self.now.lengths.now
            (spelling self.now.bytes.now self.now.starts.now self.now.lengths.now i) i first }
    {
        if first == 0 {
            return false;
        }
        if i < first {
            return false;
        }
        let k = first - 1;
        let n = index(self.lengths[i]);
        if index(self.lengths[k]) != n {
            return false;
        }
        spellings::surely_alike(self.bytes, index(self.starts[k]), index(self.starts[i]), n)
    }

    // Where identifier i is, by the chains of those before it: the least that is spelled like it, or the bucket that it goes into. Without its start,
    // its length, its link or a bucket nothing is said of the answer.
    pub fn token_place(&self, i: usize) -> Place
        ensures { PlacesToken self.now.bytes.now self.now.starts.now self.now.lengths.now self.now.heads.now self.now.next.now i result }
    {
        if !lined(
            self.starts.len(),
            self.lengths.len(),
            self.heads.len(),
            self.next.len(),
            i,
        ) {
            return Place::Free(0);
        }
        let b = self.token_bucket(i);
        let first = index(self.heads[b]);
        if self.leads(i, first) {
            return Place::Known(first - 1);
        }
        let from = self.begin(i);
        let to = self.end(i);
        self.place_from(&self.bytes[from..to], i, b)
    }

    // Where a word is, by the chains of all tokens that have a start, a length and a link. Without a bucket nothing is said of the answer.
    pub fn word_place(&self, word: &[u8]) -> Place
        ensures { PlacesWord self.now.bytes.now self.now.starts.now self.now.lengths.now self.now.heads.now self.now.next.now word.now result }
    {
        if self.heads.len() == 0 {
            return Place::Free(0);
        }
        let b = range(spellings::hash(word), self.heads.len());
        let limit = self
            .starts
            .len()
            .min(self.lengths.len().min(self.next.len()));
        self.place_from(word, limit, b)
    }
}
