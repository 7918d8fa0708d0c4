// What types and constants are declared with, the typing of constants, and their answers.
ghost use Rattle.std.specs.Prelude.{◌≡◌};
ghost use Rattle.declared_types.specs.Promise.{Declares};
ghost use Rattle.constants.specs.Constants.{EvaluatesConstants};
ghost use Rattle.test_exports.specs.Reply.{typing_reply, typing_node, Types};

use typing::IllTyped;

fn typing_reply(typing: Result<(), IllTyped>) -> u8
    ensures { result ≡ typing_reply typing }
{
    match typing {
        Ok(()) => codes::replies::ACCEPTED,
        Err(fault) => fault.reply,
    }
}

fn typing_node(typing: Result<(), IllTyped>) -> usize
    ensures { result ≡ typing_node typing }
{
    match typing {
        Ok(()) => 0,
        Err(fault) => fault.node,
    }
}

#[unsafe(no_mangle)]
pub extern "C" fn woffulent_declared_types(
    terminals: &[u8],
    kinds: &[u8],
    tokens: &[u32],
    sizes: &[u32],
    bindings: &[u32],
    order: &[u32],
    column: &mut [u32],
)
    ensures { Declares terminals.now kinds.now tokens.now sizes.now
        bindings.now order.now column.old column.new }
{
    declared_types::declared_types(terminals, kinds, tokens, sizes, bindings, order, column);
}

#[unsafe(no_mangle)]
pub extern "C" fn woffulent_type_constants(
    terminals: &[u8],
    kinds: &[u8],
    tokens: &[u32],
    sizes: &[u32],
    bindings: &[u32],
    declared: &[u32],
    scratch: &mut [u32],
    node: &mut usize,
) -> u8
    ensures { Types terminals.now kinds.now tokens.now sizes.now
        bindings.now declared.now scratch.old scratch.new result node.new }
{
    let typing = typing::type_constants(
        terminals, kinds, tokens, sizes, bindings, declared, scratch,
    );
    *node = typing_node(typing);
    typing_reply(typing)
}

#[unsafe(no_mangle)]
pub extern "C" fn woffulent_evaluate_constants(
    src: &[u8],
    starts: &[u32],
    lengths: &[u32],
    terminals: &[u8],
    kinds: &[u8],
    tokens: &[u32],
    sizes: &[u32],
    bindings: &[u32],
    declared: &[u32],
    order: &[u32],
    row_of: &mut [u32],
    answer_kinds: &mut [u8],
    answer_numbers: &mut [i64],
    answer_lengths: &mut [u8],
    value_kinds: &mut [u8],
    value_numbers: &mut [i64],
    value_lengths: &mut [u8],
    room: &mut [u8],
) -> usize
    ensures { EvaluatesConstants src.now starts.now lengths.now terminals.now kinds.now
        tokens.now sizes.now bindings.now declared.now order.now row_of.old
        answer_kinds.old answer_numbers.old answer_lengths.old
        value_kinds.old value_numbers.old value_lengths.old room.old
        row_of.new answer_kinds.new answer_numbers.new answer_lengths.new room.new result }
{
    constants::evaluate_constants(
        src,
        starts,
        lengths,
        terminals,
        kinds,
        tokens,
        sizes,
        bindings,
        declared,
        order,
        row_of,
        answer_kinds,
        answer_numbers,
        answer_lengths,
        value_kinds,
        value_numbers,
        value_lengths,
        room,
    )
}
