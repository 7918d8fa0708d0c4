// Orders of dependencies, components, and what is reached.
ghost use Rattle.std.specs.Prelude.{◌≡◌, is_ok};
ghost use Rattle.graph.specs.Mark.{Answers};
ghost use Rattle.graph.specs.Mark as graph-marks;
ghost use Rattle.cycles.specs.Answer.{lent, OrderAnswers, GroupAnswers};
ghost use Rattle.test_exports.specs.Encoded.{Encoded, vertex};

use cycles::GraphError;

// What is answered in the place of a vertex on a cycle: no number of a vertex.
const NO_ROOM: usize = 18446744073709551613;

const NO_CYCLE: usize = 18446744073709551614;

const NO_GRAPH: usize = 18446744073709551615;

fn vertex_of(cycle: Result<Option<usize>, GraphError>) -> usize
    ensures { result ≡ vertex cycle }
{
    match cycle {
        Ok(Some(v)) => v,
        Ok(None) => NO_CYCLE,
        Err(GraphError::Malformed) => NO_GRAPH,
        Err(GraphError::ColumnShort(_)) => NO_ROOM,
        Err(GraphError::ScratchShort(_)) => NO_ROOM,
    }
}

#[unsafe(no_mangle)]
pub extern "C" fn woffulent_reachable(
    first: &[u32],
    to: &[u32],
    from: usize,
    mark: &mut [u32],
    queue: &mut [u32],
) -> bool
    ensures { Encoded is_ok (Answers first.now to.now from
        (graph-marks.lent mark.old queue.old) (graph-marks.lent mark.new queue.new)) result }
{
    marking::reachable(first, to, from, mark, queue).is_ok()
}

#[unsafe(no_mangle)]
pub extern "C" fn woffulent_order(
    first: &[u32],
    to: &[u32],
    column: &mut [u32],
    scratch: &mut [u32],
) -> usize
    ensures { Encoded vertex (OrderAnswers first.now to.now (lent column.old scratch.old) (lent column.new scratch.new)) result }
{
    vertex_of(orders::order(first, to, column, scratch))
}

#[unsafe(no_mangle)]
pub extern "C" fn woffulent_components(
    first: &[u32],
    to: &[u32],
    column: &mut [u32],
    scratch: &mut [u32],
) -> bool
    ensures { Encoded is_ok (GroupAnswers first.now to.now (lent column.old scratch.old) (lent column.new scratch.new)) result }
{
    cycles::components(first, to, column, scratch).is_ok()
}
