// The stages of a check after the names: each is handed how the ones before it ended, and passes a refusal on.
#![tactic(auto)]

ghost use Rattle.std.specs.Prelude.{◌≡◌};
ghost use Rattle.answer_stages.specs.AnswerStage.{FitsRoom, EvaluatesFile, AnswersFile};
ghost use Rattle.answer_stages.specs.KindStage.{of_typing, TypesFile};

use columns::get_or;
use constants::evaluate_constants;
use declared_types::declared_types;
use stages::{Refusal, Stage};
use typing::{IllTyped, type_constants};

// What a typing comes to, of a file with n constants.
fn of_typing(typing: Result<(), IllTyped>, starts: &[u32], tokens: &[u32], n: usize) -> Stage
    ensures { result ≡ of_typing starts.now tokens.now typing n }
{
    match typing {
        Ok(()) => Ok(n),
        Err(fault) => {
            let token = columns::index(get_or(tokens, fault.node, 0));
            Err(Refusal {
                reply: fault.reply,
                number: get_or(starts, token, 0),
            })
        }
    }
}

// The kinds of the constants: replies 14 and 15. What is declared stands in a column by node.
pub fn type_file(
    before: Stage,
    starts: &[u32],
    terminals: &[u8],
    kinds: &[u8],
    tokens: &[u32],
    sizes: &[u32],
    bindings: &[u32],
    order: &[u32],
    declared: &mut [u32],
    scratch: &mut [u32],
) -> Stage
    ensures { TypesFile before starts.now terminals.now kinds.now tokens.now sizes.now
        bindings.now order.now declared.old scratch.old result declared.new }
{
    let n = before?;
    declared_types(terminals, kinds, tokens, sizes, bindings, order, declared);
    let typing = type_constants(terminals, kinds, tokens, sizes, bindings, declared, scratch);
    of_typing(typing, starts, tokens, n)
}

// What the bytes needed come to in a room of so many, of a file with n constants: reply 20.
fn of_room(needed: usize, room: usize, n: usize) -> Stage
    ensures { FitsRoom needed room n result }
{
    if needed <= room {
        return Ok(n);
    }
    Err(Refusal {
        reply: codes::replies::ROOM_SHORT,
        number: columns::number(room),
    })
}

// The answers of the constants, where all stages are done.
fn evaluate_file(
    before: Stage,
    src: &[u8],
    starts: &[u32],
    lengths: &[u32],
    terminals: &[u8],
    kinds: &[u8],
    tokens: &[u32],
    sizes: &[u32],
    bindings: &[u32],
    declared: &[u32],
    order: &[u32],
    row_of: &mut [u32],
    answer_kinds: &mut [u8],
    answer_numbers: &mut [i64],
    answer_lengths: &mut [u8],
    value_kinds: &mut [u8],
    value_numbers: &mut [i64],
    value_lengths: &mut [u8],
    room: &mut [u8],
) -> Stage
    ensures { EvaluatesFile src.now starts.now lengths.now terminals.now kinds.now
        tokens.now sizes.now bindings.now before declared.now order.now row_of.old
        answer_kinds.old answer_numbers.old answer_lengths.old
        value_kinds.old value_numbers.old value_lengths.old room.old result
        row_of.new answer_kinds.new answer_numbers.new answer_lengths.new room.new }
{
    let n = before?;
    let needed = evaluate_constants(
        src,
        starts,
        lengths,
        terminals,
        kinds,
        tokens,
        sizes,
        bindings,
        declared,
        order,
        row_of,
        answer_kinds,
        answer_numbers,
        answer_lengths,
        value_kinds,
        value_numbers,
        value_lengths,
        room,
    );
    of_room(needed, room.len(), n)
}

// From names to answers: replies 14, 15 and 20, the answer columns and the room. One column serves the typing, and then the rows by node.
pub fn answer_file(
    before: Stage,
    src: &[u8],
    starts: &[u32],
    lengths: &[u32],
    terminals: &[u8],
    kinds: &[u8],
    tokens: &[u32],
    sizes: &[u32],
    bindings: &[u32],
    type_order: &[u32],
    constant_order: &[u32],
    declared: &mut [u32],
    row_of: &mut [u32],
    answer_kinds: &mut [u8],
    answer_numbers: &mut [i64],
    answer_lengths: &mut [u8],
    value_kinds: &mut [u8],
    value_numbers: &mut [i64],
    value_lengths: &mut [u8],
    room: &mut [u8],
) -> Stage
    ensures { AnswersFile src.now starts.now lengths.now terminals.now kinds.now
        tokens.now sizes.now bindings.now before type_order.now constant_order.now
        declared.old row_of.old answer_kinds.old answer_numbers.old answer_lengths.old
        value_kinds.old value_numbers.old value_lengths.old room.old result
        answer_kinds.new answer_numbers.new answer_lengths.new room.new }
{
    let typed = type_file(
        before, starts, terminals, kinds, tokens, sizes, bindings, type_order, declared, row_of,
    );
    evaluate_file(
        typed,
        src,
        starts,
        lengths,
        terminals,
        kinds,
        tokens,
        sizes,
        bindings,
        declared,
        constant_order,
        row_of,
        answer_kinds,
        answer_numbers,
        answer_lengths,
        value_kinds,
        value_numbers,
        value_lengths,
        room,
    )
}
