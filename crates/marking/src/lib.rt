// All that a vertex reaches, marked in a lent column, for columns of any lengths and contents.
#![tactic(auto)]

ghost use Rattle.std.specs.Prelude.{◌≡◌, length, replicate};
ghost use Rattle.graph.specs.Mark.{Markable, Marks, lent, Answers};

use graph::MarkError;

// Marks all that is reached, where there is room; the queue is left with zeros.
fn spread(first: &[u32], to: &[u32], from: usize, mark: &mut [u32], queue: &mut [u32])
    requires { Markable first.now to.now from mark.old queue.old }
    ensures { Marks first.now to.now from mark.new × (queue.new ≡ replicate (length queue.old) 0) }
{
    columns::clear(mark, 0, 0);
    graph::search(first, to, from, 1, mark, queue);
    columns::clear(queue, 0, 0);
}

// Marks all that a vertex reaches over one or more arcs.
pub fn reachable(
    first: &[u32],
    to: &[u32],
    from: usize,
    mark: &mut [u32],
    queue: &mut [u32],
) -> Result<(), MarkError>
    ensures { Answers first.now to.now from (lent mark.old queue.old) (lent mark.new queue.new) result }
{
    if !graph::valid(first, to) {
        return Err(MarkError::Malformed);
    }
    let n = first.len() - 1;
    if n <= from {
        return Err(MarkError::Malformed);
    }
    if mark.len().min(queue.len()) < n {
        return Err(MarkError::Short(n));
    }
    spread(first, to, from, &mut mark[..n], &mut queue[..n]);
    Ok(())
}
