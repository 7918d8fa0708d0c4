// The answers of a file, with what is computed for each node in arrays of the call, in one of four sizes, and gone after it.
#![tactic(auto)]

ghost use Rattle.std.specs.Prelude.{◌≤◌};
ghost use Rattle.express.specs.Tokens.Lexis.{most};
ghost use Rattle.answer_frames.specs.AnswerFrame.{AnswersWithin};

use pipeline::{File, answer_named};
use reading::{FEW, LARGE, MANY, SOME};
use stages::Stage;

// The answers with arrays for ROWS nodes. Each size is a function of its own, so that its arrays are in no frame of a caller.
#[inline(never)]
fn answer_within<const ROWS: usize>(
    before: Stage,
    file: &File,
    bindings: &[u32],
    types: &[u32],
    constants: &[u32],
    answer_kinds: &mut [u8],
    answer_numbers: &mut [i64],
    answer_lengths: &mut [u8],
    room: &mut [u8],
) -> Stage
    requires { ROWS ≤ most }
    ensures { AnswersWithin ROWS before file.now.src.now file.now.starts.now file.now.lengths.now
        file.now.terminals.now file.now.kinds.now file.now.tokens.now file.now.sizes.now
        bindings.now types.now constants.now
        answer_kinds.old answer_numbers.old answer_lengths.old room.old result
        answer_kinds.new answer_numbers.new answer_lengths.new room.new }
{
    let mut declared = [0u32; ROWS];
    let mut row_of = [0u32; ROWS];
    let mut value_kinds = [0u8; ROWS];
    let mut value_numbers = [0i64; ROWS];
    let mut value_lengths = [0u8; ROWS];
    answer_named(
        before,
        file,
        bindings,
        types,
        constants,
        &mut declared,
        &mut row_of,
        answer_kinds,
        answer_numbers,
        answer_lengths,
        &mut value_kinds,
        &mut value_numbers,
        &mut value_lengths,
        room,
    )
}

// The arrays by the number of nodes, so that a small file clears little.
fn answer_framed(
    before: Stage,
    file: &File,
    bindings: &[u32],
    types: &[u32],
    constants: &[u32],
    answer_kinds: &mut [u8],
    answer_numbers: &mut [i64],
    answer_lengths: &mut [u8],
    room: &mut [u8],
) -> Stage
    ensures { AnswersWithin most before file.now.src.now file.now.starts.now file.now.lengths.now
        file.now.terminals.now file.now.kinds.now file.now.tokens.now file.now.sizes.now
        bindings.now types.now constants.now
        answer_kinds.old answer_numbers.old answer_lengths.old room.old result
        answer_kinds.new answer_numbers.new answer_lengths.new room.new }
{
    if file.kinds.len() <= SOME {
        return answer_within::<SOME>(
            before,
            file,
            bindings,
            types,
            constants,
            answer_kinds,
            answer_numbers,
            answer_lengths,
            room,
        );
    }
    if file.kinds.len() <= MANY {
        return answer_within::<MANY>(
            before,
            file,
            bindings,
            types,
            constants,
            answer_kinds,
            answer_numbers,
            answer_lengths,
            room,
        );
    }
    answer_within::<LARGE>(
        before,
        file,
        bindings,
        types,
        constants,
        answer_kinds,
        answer_numbers,
        answer_lengths,
        room,
    )
}

// For short files the smallest arrays where there are few nodes, for the whole of a frame is touched page by page where it is entered.
pub fn answer_sized<const SHORT: bool>(
    before: Stage,
    file: &File,
    bindings: &[u32],
    types: &[u32],
    constants: &[u32],
    answer_kinds: &mut [u8],
    answer_numbers: &mut [i64],
    answer_lengths: &mut [u8],
    room: &mut [u8],
) -> Stage
    ensures { AnswersWithin most before file.now.src.now file.now.starts.now file.now.lengths.now
        file.now.terminals.now file.now.kinds.now file.now.tokens.now file.now.sizes.now
        bindings.now types.now constants.now
        answer_kinds.old answer_numbers.old answer_lengths.old room.old result
        answer_kinds.new answer_numbers.new answer_lengths.new room.new }
{
    if SHORT && file.kinds.len() <= FEW {
        return answer_within::<FEW>(
            before,
            file,
            bindings,
            types,
            constants,
            answer_kinds,
            answer_numbers,
            answer_lengths,
            room,
        );
    }
    answer_framed(
        before,
        file,
        bindings,
        types,
        constants,
        answer_kinds,
        answer_numbers,
        answer_lengths,
        room,
    )
}
