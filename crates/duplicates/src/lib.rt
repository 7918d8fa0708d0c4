// Reply 9: what is declared twice in one scope, at the later name.
#![tactic(auto)]

ghost use Rattle.duplicates.specs.Duplicates.{Repetition, Duplicates};

use columns::{get_or, index};
use faults::{Fault, Reply};

// The fault of the entry after e that has its key, if there is one.
fn repetition(
    tokens: &[u32],
    starts: &[u32],
    keys: &[u64],
    nodes: &[u32],
    next: &[u32],
    e: usize,
) -> Option<Fault>
    ensures { Repetition tokens.now starts.now keys.now nodes.now next.now e result }
{
    let later = index::dictionary::next_of(keys, next, e);
    let Some(j) = later else {
        return None;
    };
    let token = index(get_or(tokens, index(get_or(nodes, j, 0)), 0));
    faults::fault_at(Reply::Repeated, get_or(starts, token, 0))
}

// The fault with the smallest place.
pub fn least_duplicate(
    tokens: &[u32],
    starts: &[u32],
    keys: &[u64],
    nodes: &[u32],
    next: &[u32],
) -> Option<Fault>
    ensures { Duplicates tokens.now starts.now keys.now nodes.now next.now result }
{
    let mut least = None;
    for e in (0..keys.len()).rev() {
        least = faults::sooner(repetition(tokens, starts, keys, nodes, next, e), least);
    }
    least
}
