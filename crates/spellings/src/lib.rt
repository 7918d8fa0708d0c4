// Words as they are spelled, letters without case: the hash of one, and whether two are spelled alike.
#![tactic(auto)]

ghost use Rattle.std.specs.Prelude.{◌≡◌, map, true, ◌+◌, ◌%◌, ◌^◌, ◌≤◌, ◌<◌, min, length, take, drop};
ghost use Rattle.express.specs.Tokens.Bytes.{lower, same};
ghost use Rattle.spellings.specs.Blocks.{no_letters, Eight, Agrees, SurelyAlike};
ghost use Rattle.spellings.specs.Hash.{Four, IsBlock, Joins, Hashes, stirred, long_hash_of};

// How many bytes a block has; what the second, the third and the fourth of them count; the low five bits of all four, and
// of one.
const BLOCK: usize = 4;

const SECOND: u64 = 256;

const THIRD: u64 = 65536;

const FOURTH: u64 = 16777216;

const LOW_BITS: u64 = 31 + 31 * SECOND + 31 * THIRD + 31 * FOURTH;

const FIVE_BITS: u8 = 32;

// Eight bytes are compared at once: how many they are, how many bits one has, and a one in each of them.
const EIGHT: usize = 8;

const BITS: u64 = 8;

const EACH: u64 = 72340172838076673;

// Of each of them: all bits; the low five; all but the one that the cases of a letter differ in; those that a capital letter has.
const ALL_BITS: u64 = 255 * EACH;

const LOW_OF_EACH: u64 = 31 * EACH;

const NOT_CASE: u64 = 223 * EACH;

const CAPITAL: u64 = 95 * EACH;

// What makes the bit of the case the high bit of a byte; what sets the high bit from A on, and behind Z.
const CASE_TO_HIGH: u64 = 4;

const BEFORE_A: u64 = 63 * EACH;

const BEHIND_Z: u64 = 37 * EACH;

fn wide(b: u8) -> u64
    ensures { (result ≡ b) × (result < 256) }
{
    b as u64
}

// Four bytes from a place on as one number.
fn four(s: &[u8], i: usize) -> u64
    requires { i + 4 ≤ length s.now }
    ensures { Four s.now i result }
{
    wide(s[i]) + wide(s[i + 1]) * SECOND + wide(s[i + 2]) * THIRD + wide(s[i + 3]) * FOURTH
}

// The block of a word at a place: of each byte the bits that the two cases of a letter share.
fn block(word: &[u8], i: usize) -> u64
    requires { i + 4 ≤ length word.now }
    ensures { IsBlock word.now i result }
{
    four(word, i) & LOW_BITS
}

// The block of a word that is shorter than a block.
fn short_block(word: &[u8]) -> u64
    requires { length word.now < 4 }
    ensures { IsBlock word.now 0 result }
{
    let n = word.len();
    if n == 0 {
        return 0;
    }
    let first = wide(word[0] % FIVE_BITS);
    let middle = wide(word[n / 2] % FIVE_BITS);
    let last = wide(word[n - 1] % FIVE_BITS);
    if n == 1 {
        return first;
    }
    if n == 2 {
        return first + middle * SECOND;
    }
    first + middle * SECOND + last * THIRD
}

// A number in which two have a say.
fn join(h: u64, x: u64) -> u64
    requires { (h < 4294967296) × (x < 4294967296) }
    ensures { Joins h x result }
{
    (h + x) % index::WORD * index::FACTOR % index::WORD
}

// The block of a word at a place, as far as the word goes.
fn part(word: &[u8], i: usize) -> u64
    ensures { IsBlock word.now i result }
{
    if word.len() <= i {
        return 0;
    }
    if BLOCK <= word.len() - i {
        return block(word, i);
    }
    short_block(&word[i..])
}

// A number for a spelling.
pub fn hash(word: &[u8]) -> u64
    ensures { Hashes word.now result }
{
    let mut h = join(join(0, part(word, 0)), part(word, BLOCK));
    let mut i = EIGHT;
    while i < word.len() {
        h = join(h, part(word, i));
        i += BLOCK;
    }
    h
}

// A number of 64 bits in which a byte has its say: a step of multiply with carry.
pub fn stir(h: u64, b: u8) -> u64
    ensures { result ≡ stirred h b }
{
    (h % index::WORD + wide(b)) * index::FACTOR + h / index::WORD
}

// A longer number for a spelling, in which all bits of its bytes have a say: for words whose hashes are alike.
pub fn long_hash(word: &[u8]) -> u64
    ensures { result ≡ long_hash_of (map lower word.now) }
{
    let mut h = 0;
    for b in word {
        h = stir(h, b.to_ascii_lowercase());
    }
    stir(stir(h, 0), 0)
}

// Eight bytes from a place on as one number.
fn eight(s: &[u8], i: usize) -> u64
    requires { i + 8 ≤ length s.now }
    ensures { Eight s.now i result }
{
    four(s, i) + four(s, i + BLOCK) * index::WORD
}

// The first n bytes of eight.
fn first_bytes(x: u64, n: usize) -> u64
    ensures { result ≡ x % 256 ^ min n 8 }
{
    if n < EIGHT {
        return x % (1 << (BITS * n as u64));
    }
    x
}

// The high bit of each of eight bytes is set where it is no letter.
fn high_at_others(a: u64) -> u64
    ensures { result ≡ no_letters 8 a }
{
    let capital = a & CAPITAL;
    (ALL_BITS - (capital + BEFORE_A)) | (capital + BEHIND_Z) | a
}

// Are the first n of eight bytes the same but for the case of letters? Then they differ in no other bit, and in that one in letters alone.
fn agree(a: u64, b: u64, n: usize) -> bool
    ensures { Agrees a b n result }
{
    let differing = first_bytes(a ^ b, n);
    if differing & NOT_CASE != 0 {
        return false;
    }
    (differing * CASE_TO_HIGH) & high_at_others(a) == 0
}

// Do n bytes from a place on lie eight bytes or more before the end?
fn inside(length: usize, at: usize, n: usize) -> bool
    ensures { result ≡ true → at + n + 8 ≤ length }
{
    length >= EIGHT && n <= length - EIGHT && at <= length - EIGHT - n
}

// The number of n bytes from a place on, as far as they are there.
fn hash_clipped(s: &[u8], at: usize, n: usize) -> u64
    ensures { Hashes (take n (drop at s.now)) result }
{
    let from = at.min(s.len());
    let to = from + n.min(s.len() - from);
    hash(&s[from..to])
}

// The number of n bytes from a place on: of a short word by one number of eight bytes.
pub fn hash_at(s: &[u8], at: usize, n: usize) -> u64
    ensures { Hashes (take n (drop at s.now)) result }
{
    if EIGHT < n || !inside(s.len(), at, n) {
        return hash_clipped(s, at, n);
    }
    let x = first_bytes(eight(s, at), n) & LOW_OF_EACH;
    join(join(0, x % index::WORD), x / index::WORD)
}

// Are the n bytes from two places on spelled alike? No is said of the last bytes, whatever they are.
pub fn surely_alike(s: &[u8], p: usize, q: usize, n: usize) -> bool
    ensures { SurelyAlike s.now p q n result }
{
    if !inside(s.len(), p, n) || !inside(s.len(), q, n) {
        return false;
    }
    let mut i = 0;
    while i < n {
        if !agree(eight(s, p + i), eight(s, q + i), n - i) {
            return false;
        }
        i += EIGHT;
    }
    true
}

// Are two words spelled alike?
#[tactic(auto, using(crate::proofs::Spellings::alike))]
pub fn alike(a: &[u8], b: &[u8]) -> bool
    ensures { result ≡ same (map lower a.now) (map lower b.now) }
{
    a.eq_ignore_ascii_case(b)
}
