// The limit on nesting: the first token that is too deep, where the tokens that are read end, and what the answer on these says of all.
#![tactic(auto)]

ghost use Rattle.std.specs.Prelude.{◌≡◌, ◌≤◌};
ghost use Rattle.ebnf.specs.Depth.{opened};
ghost use Rattle.express.specs.Syntax.Syntax.{opening, closing, nesting};
ghost use Rattle.parsing.specs.Outcome.{steps as step_list, deep_or_end, end_of, judged};

use parsing::{Judgement, Read, Refusal};

// How many brackets are open after one more token.
fn nested(steps: &[u8; 256], depth: usize, c: u8) -> usize
    requires { (steps.now ≡ step_list) × (depth ≤ nesting) }
    ensures { result ≡ opened opening closing depth c }
{
    (depth + columns::byte_index(steps[columns::byte_index(c)])).saturating_sub(1)
}

// The first token that opens a parenthesis or an interval while 64 are open; the length where there is none.
pub fn first_deep(terminals: &[u8]) -> usize
    ensures { result ≡ deep_or_end terminals.now }
{
    // How many brackets are open after each terminal where one is before it. A table has no branch, and the limit is tested at every token.
    let mut steps = [1u8; 256];
    steps[columns::byte_index(codes::LPAREN)] = 2;
    steps[columns::byte_index(codes::LBRACE)] = 2;
    steps[columns::byte_index(codes::RPAREN)] = 0;
    steps[columns::byte_index(codes::RBRACE)] = 0;
    let mut depth: usize = 0;
    for i in 0..terminals.len() {
        depth = nested(&steps, depth, terminals[i]);
        if depth > codes::limits::NESTING {
            return i;
        }
    }
    terminals.len()
}

// Where the tokens that are read end: behind one that is too deep.
pub fn end_of(deep: usize, length: usize) -> usize
    ensures { result ≡ end_of deep length }
{
    if deep < length { deep + 1 } else { length }
}

// What the answer on the tokens before `end` says of all tokens.
pub fn judged(read: Read, deep: usize, end: usize) -> Judgement
    ensures { result ≡ judged read deep end }
{
    match read {
        Ok(next) => {
            if next.token != end {
                Err(Refusal::Unexpected(next.token))
            } else if deep < end {
                Err(Refusal::TooDeep(deep))
            } else {
                Ok(next.row)
            }
        }
        Err(refused) => {
            if deep < refused.token {
                Err(Refusal::TooDeep(deep))
            } else {
                Err(Refusal::Unexpected(refused.token))
            }
        }
    }
}
