// The stages of a check from the nodes on: names, and answers by the orders that names leave.
#![tactic(auto)]

ghost use Rattle.std.specs.Prelude.{◌≡◌};
ghost use Rattle.pipeline.specs.Binding.{Declarations, AnswersNamed};
ghost use Rattle.pipeline.specs.NameStage.{of_resolution, NamesFile};

use answer_stages::answer_file;
use names::resolve;
use stages::{Refusal, Stage};

// A file as far as its nodes: its bytes, and the columns of its tokens and of its nodes.
#[derive(Clone, Copy)]
pub struct File<'a> {
    pub src: &'a [u8],
    pub starts: &'a [u32],
    pub lengths: &'a [u32],
    pub terminals: &'a [u8],
    pub kinds: &'a [u8],
    pub tokens: &'a [u32],
    pub sizes: &'a [u32],
}

// What a resolution comes to, of a file with n constants. Columns that do not fit are no file's.
fn of_resolution(resolution: Result<(), resolutions::Refusal>, n: usize) -> Stage
    ensures { result ≡ of_resolution resolution n }
{
    match resolution {
        Ok(()) => Ok(n),
        Err(resolutions::Refusal::Faulty(fault)) => Err(Refusal {
            reply: fault.reply.number(),
            number: fault.place,
        }),
        Err(resolutions::Refusal::Unfit) => Err(Refusal {
            reply: codes::replies::TOO_LONG,
            number: codes::limits::BYTES,
        }),
    }
}

// The names of a file: replies 9 to 13. The column of bindings holds the roles before.
pub fn name_file(
    before: Stage,
    file: &File,
    bindings: &mut [u32],
    roles: &mut [u8],
    symbols: &mut [u32],
    keys: &mut [u64],
    nodes: &mut [u32],
    heads: &mut [u32],
    next: &mut [u32],
    first: &mut [u32],
    to: &mut [u32],
    types: &mut [u32],
    constants: &mut [u32],
    scratch: &mut [u32],
) -> Stage
    ensures { NamesFile before file.now.src.now file.now.starts.now file.now.lengths.now
        file.now.terminals.now file.now.kinds.now file.now.tokens.now file.now.sizes.now
        bindings.old roles.old symbols.old keys.old nodes.old
        heads.old next.old first.old to.old types.old constants.old
        scratch.old result bindings.new types.new constants.new }
{
    let n = before?;
    let resolution = resolve(
        file.src,
        file.starts,
        file.lengths,
        file.terminals,
        file.kinds,
        file.tokens,
        file.sizes,
        bindings,
        roles,
        symbols,
        keys,
        nodes,
        heads,
        next,
        first,
        to,
        types,
        constants,
        scratch,
    );
    of_resolution(resolution, n)
}

// How many constants, types and entities there are.
fn count_declarations(kinds: &[u8]) -> usize
    ensures { Declarations kinds.now result }
{
    kinds
        .iter()
        .filter(|kind| scopes::is_declaration(**kind))
        .count()
}

// From names to answers, with the orders of the declarations at the fronts of two columns.
pub fn answer_named(
    before: Stage,
    file: &File,
    bindings: &[u32],
    types: &[u32],
    constants: &[u32],
    declared: &mut [u32],
    row_of: &mut [u32],
    answer_kinds: &mut [u8],
    answer_numbers: &mut [i64],
    answer_lengths: &mut [u8],
    value_kinds: &mut [u8],
    value_numbers: &mut [i64],
    value_lengths: &mut [u8],
    room: &mut [u8],
) -> Stage
    ensures { AnswersNamed before file.now.src.now file.now.starts.now file.now.lengths.now
        file.now.terminals.now file.now.kinds.now file.now.tokens.now file.now.sizes.now
        bindings.now types.now constants.now
        declared.old row_of.old answer_kinds.old answer_numbers.old answer_lengths.old
        value_kinds.old value_numbers.old value_lengths.old room.old result answer_kinds.new
        answer_numbers.new answer_lengths.new room.new }
{
    let v = count_declarations(file.kinds).min(types.len().min(constants.len()));
    answer_file(
        before,
        file.src,
        file.starts,
        file.lengths,
        file.terminals,
        file.kinds,
        file.tokens,
        file.sizes,
        bindings,
        &types[..v],
        &constants[..v],
        declared,
        row_of,
        answer_kinds,
        answer_numbers,
        answer_lengths,
        value_kinds,
        value_numbers,
        value_lengths,
        room,
    )
}
