// The typing of constants: a kind for each node of an expression, or the first fault, 14 or 15.
// An expression's own columns and the file's are apart, so that an expression that is read by itself is typed against a file.
#![tactic(auto)]

ghost use Rattle.std.specs.Prelude.{◌≡◌};
ghost use Rattle.typing.specs.Typings.{Named, Operates, Finds, TypesNodes, TypesConstants};

use columns::get_or;
use kind_rules::{
    Fault, UNTYPED, apply, common, constant, evaluated, interval, kind_of_type, leaf,
    operator_class, sign_class, simple,
};
use tree::{index_at, last, left, low, middle, next_of_kind};

// The reply and the node of the first fault.
#[derive(Clone, Copy, Debug, PartialEq, Eq)]
pub struct IllTyped {
    pub reply: u8,
    pub node: usize,
}

// A name by what it is bound to: an item, a constant, or else a type.
fn named(kinds: &[u8], binding: usize, file_kinds: &[u8], declared: &[u32]) -> Result<u32, Fault>
    ensures { Named kinds.now binding file_kinds.now declared.now result }
{
    if binding == 0 {
        return Err(Fault::NotEvaluated);
    }
    let d = binding - 1;
    let number = get_or(declared, d, 0);
    let kind = get_or(file_kinds, d, 0);
    if kind == codes::nodes::ITEM {
        return Ok(number);
    }
    if kind == codes::nodes::CONSTANT {
        return evaluated(number, kind_of_type(number));
    }
    if get_or(kinds, d, 0) == codes::nodes::TYPE {
        return evaluated(number, UNTYPED);
    }
    Err(Fault::NotEvaluated)
}

// A node that is neither a name nor a constant.
fn operation(kind: u8, terminal: u8, sizes: &[u32], scratch: &[u32], n: usize) -> Result<u32, Fault>
    ensures { Operates kind terminal sizes.now scratch.now n result }
{
    let value = get_or(scratch, last(n), 0);
    if kind == codes::nodes::UNARY {
        return apply(sign_class(terminal), value);
    }
    if kind == codes::nodes::TWO_OPERAND {
        return apply(
            operator_class(terminal),
            common(get_or(scratch, left(sizes, n), 0), value),
        );
    }
    if kind == codes::nodes::INTERVAL {
        return interval(
            get_or(scratch, low(sizes, n), 0),
            get_or(scratch, middle(sizes, n), 0),
            value,
        );
    }
    if kind == codes::nodes::SIMPLE_TYPE {
        return evaluated(simple(terminal), UNTYPED);
    }
    leaf(kind, terminal)
}

// What is found at a node, from the kinds of its children.
fn found_at(
    terminals: &[u8],
    kinds: &[u8],
    tokens: &[u32],
    sizes: &[u32],
    bindings: &[u32],
    file_kinds: &[u8],
    declared: &[u32],
    scratch: &[u32],
    n: usize,
) -> Result<u32, Fault>
    ensures { Finds terminals.now kinds.now tokens.now sizes.now bindings.now
        file_kinds.now declared.now scratch.now n result }
{
    let kind = get_or(kinds, n, 0);
    if kind == codes::nodes::NAME {
        return named(kinds, index_at(bindings, n), file_kinds, declared);
    }
    if kind == codes::nodes::QUALIFIED_ITEM {
        return named(kinds, index_at(bindings, n), file_kinds, declared);
    }
    if kind == codes::nodes::CONSTANT {
        return constant(get_or(declared, n, 0), get_or(scratch, last(n), 0));
    }
    operation(
        kind,
        get_or(terminals, index_at(tokens, n), 0),
        sizes,
        scratch,
        n,
    )
}

// Types the nodes from lo up to hi, hi itself not, of an expression against a file; the kind of each is kept for its parent.
pub fn type_expression(
    terminals: &[u8],
    kinds: &[u8],
    tokens: &[u32],
    sizes: &[u32],
    bindings: &[u32],
    lo: usize,
    hi: usize,
    file_kinds: &[u8],
    declared: &[u32],
    scratch: &mut [u32],
) -> Result<(), IllTyped>
    ensures { TypesNodes terminals.now kinds.now tokens.now sizes.now bindings.now
        lo hi file_kinds.now declared.now scratch.old scratch.new result }
{
    for n in lo..hi {
        let found = found_at(
            terminals, kinds, tokens, sizes, bindings, file_kinds, declared, scratch, n,
        );
        match found {
            Ok(k) => columns::put(scratch, n, k),
            Err(f) => {
                return Err(IllTyped {
                    reply: u8::from(f),
                    node: n,
                });
            }
        }
    }
    Ok(())
}

// Types the constants of a file, in the order of the text.
pub fn type_constants(
    terminals: &[u8],
    kinds: &[u8],
    tokens: &[u32],
    sizes: &[u32],
    bindings: &[u32],
    declared: &[u32],
    scratch: &mut [u32],
) -> Result<(), IllTyped>
    ensures { TypesConstants terminals.now kinds.now tokens.now sizes.now
        bindings.now declared.now scratch.old scratch.new result }
{
    let mut n = next_of_kind(kinds, codes::nodes::CONSTANT, 0);
    while n < kinds.len() {
        let first = (n + 1).saturating_sub(index_at(sizes, n));
        type_expression(
            terminals,
            kinds,
            tokens,
            sizes,
            bindings,
            first,
            n + 1,
            kinds,
            declared,
            scratch,
        )?;
        n = next_of_kind(kinds, codes::nodes::CONSTANT, n + 1);
    }
    Ok(())
}
