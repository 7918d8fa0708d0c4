// The names of a file, with scratch in arrays of the call, in one of four sizes, and gone after it. The orders of the declarations are lent.
#![tactic(auto)]

ghost use Rattle.express.specs.Tokens.Lexis.{most};
ghost use Rattle.name_frames.specs.NameFrame.{FrameSizes, NamesWithin};

use pipeline::{File, name_file};
use reading::{FEW, LARGE, MANY, SOME};
use stages::Stage;

// Of n tokens: no more than n nodes, n / 2 entries of the dictionary and arcs, n / 5 declarations, and six words of the search for each of these.
const FEW_HALF: usize = FEW / 2;

const FEW_EIGHTH: usize = FEW / 8;

const FEW_FIFTH: usize = FEW / 5 + 1;

const FEW_SEARCH: usize = 6 * FEW_FIFTH;

const SOME_HALF: usize = SOME / 2;

const SOME_EIGHTH: usize = SOME / 8;

const SOME_FIFTH: usize = SOME / 5 + 1;

const SOME_SEARCH: usize = 6 * SOME_FIFTH;

const MANY_HALF: usize = MANY / 2;

const MANY_EIGHTH: usize = MANY / 8;

const MANY_FIFTH: usize = MANY / 5 + 1;

const MANY_SEARCH: usize = 6 * MANY_FIFTH;

const LARGE_HALF: usize = LARGE / 2;

const LARGE_EIGHTH: usize = LARGE / 8;

const LARGE_FIFTH: usize = LARGE / 5 + 1;

const LARGE_SEARCH: usize = 6 * LARGE_FIFTH;

// The names with arrays for ROWS tokens. Each size is a function of its own, so that its arrays are in no frame of a caller.
#[inline(never)]
fn name_within<
    const ROWS: usize,
    const HALF: usize,
    const EIGHTH: usize,
    const FIFTH: usize,
    const SEARCH: usize,
>(
    before: Stage,
    file: &File,
    bindings: &mut [u32],
    types: &mut [u32],
    constants: &mut [u32],
) -> Stage
    requires { FrameSizes ROWS HALF EIGHTH FIFTH SEARCH }
    ensures { NamesWithin ROWS before file.now.src.now file.now.starts.now file.now.lengths.now
        file.now.terminals.now file.now.kinds.now file.now.tokens.now file.now.sizes.now
        bindings.old types.old constants.old result
        bindings.new types.new constants.new }
{
    let mut roles = [0u8; ROWS];
    let mut symbols = [0u32; ROWS];
    let mut keys = [0u64; HALF];
    let mut nodes = [0u32; HALF];
    let mut heads = [0u32; EIGHTH];
    let mut next = [0u32; HALF];
    let mut first = [0u32; FIFTH];
    let mut to = [0u32; HALF];
    let mut scratch = [0u32; SEARCH];
    name_file(
        before,
        file,
        bindings,
        &mut roles,
        &mut symbols,
        &mut keys,
        &mut nodes,
        &mut heads,
        &mut next,
        &mut first,
        &mut to,
        types,
        constants,
        &mut scratch,
    )
}

// The arrays by the number of tokens, so that a small file clears little.
fn name_framed(
    before: Stage,
    file: &File,
    bindings: &mut [u32],
    types: &mut [u32],
    constants: &mut [u32],
) -> Stage
    ensures { NamesWithin most before file.now.src.now file.now.starts.now file.now.lengths.now
        file.now.terminals.now file.now.kinds.now file.now.tokens.now file.now.sizes.now
        bindings.old types.old constants.old result
        bindings.new types.new constants.new }
{
    if file.starts.len() <= SOME {
        return name_within::<SOME, SOME_HALF, SOME_EIGHTH, SOME_FIFTH, SOME_SEARCH>(
            before, file, bindings, types, constants,
        );
    }
    if file.starts.len() <= MANY {
        return name_within::<MANY, MANY_HALF, MANY_EIGHTH, MANY_FIFTH, MANY_SEARCH>(
            before, file, bindings, types, constants,
        );
    }
    name_within::<LARGE, LARGE_HALF, LARGE_EIGHTH, LARGE_FIFTH, LARGE_SEARCH>(
        before, file, bindings, types, constants,
    )
}

// For short files the smallest arrays where there are few tokens, for the whole of a frame is touched page by page where it is entered.
pub fn name_sized<const SHORT: bool>(
    before: Stage,
    file: &File,
    bindings: &mut [u32],
    types: &mut [u32],
    constants: &mut [u32],
) -> Stage
    ensures { NamesWithin most before file.now.src.now file.now.starts.now file.now.lengths.now
        file.now.terminals.now file.now.kinds.now file.now.tokens.now file.now.sizes.now
        bindings.old types.old constants.old result
        bindings.new types.new constants.new }
{
    if SHORT && file.starts.len() <= FEW {
        return name_within::<FEW, FEW_HALF, FEW_EIGHTH, FEW_FIFTH, FEW_SEARCH>(
            before, file, bindings, types, constants,
        );
    }
    name_framed(before, file, bindings, types, constants)
}
