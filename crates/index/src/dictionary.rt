// A dictionary over an array of keys, 0 for an entry that has none: the least entry with a key, and the next one.
ghost use Rattle.index.specs.Dictionary.{Builds, Finds, Continues, Walks};

use crate::{Short, bucket, scratch};
use columns::{clear, index, number};

// Chains the entries of each bucket in their order. The entries are taken from the last to the first, so that each is put
// before what is there.
pub fn build(keys: &[u64], heads: &mut [u32], next: &mut [u32]) -> Result<(), Short>
    ensures { Builds keys.now heads.old next.old result heads.new next.new }
{
    if !scratch(keys.len(), heads.len(), next.len()) {
        return Err(Short);
    }
    clear(heads, 0, 0);
    for i in (0..keys.len()).rev() {
        let key = keys[i];
        if key != 0 {
            let b = bucket(key, heads.len());
            next[i] = heads[b];
            heads[b] = number(i + 1);
        }
    }
    Ok(())
}

// The least entry with a key.
pub fn find(keys: &[u64], heads: &[u32], next: &[u32], key: u64) -> Option<usize>
    ensures { Finds keys.now heads.now next.now key result }
{
    if key == 0 || heads.is_empty() {
        return None;
    }
    let b = bucket(key, heads.len());
    walk(keys, next, key, 0, index(heads[b]))
}

// The next entry with the key of this one.
pub fn next_of(keys: &[u64], next: &[u32], entry: usize) -> Option<usize>
    ensures { Continues keys.now next.now entry result }
{
    if keys.len() <= entry || next.len() <= entry {
        return None;
    }
    let key = keys[entry];
    if key == 0 {
        return None;
    }
    walk(keys, next, key, entry + 1, index(next[entry]))
}

// The first entry on a chain that has a key. Links that do not rise end it, whatever `next` holds.
fn walk(keys: &[u64], next: &[u32], key: u64, from: usize, first: usize) -> Option<usize>
    ensures { Walks keys.now next.now key from first result }
{
    let mut at = from;
    let mut link = first;
    while at < link {
        let k = link - 1;
        if keys.len() <= k {
            return None;
        }
        if keys[k] == key {
            return Some(k);
        }
        if next.len() <= k {
            return None;
        }
        at = link;
        link = index(next[k]);
    }
    None
}
