// One whole expression by itself, to node columns.
#![tactic(auto)]

ghost use Rattle.std.specs.Prelude.{◌≡◌, ◌≤◌, length};
ghost use Rattle.express.specs.Syntax.Grammar.{expression};
ghost use Rattle.parsing.specs.Parsing.{Parsing};
ghost use Rattle.parsing.specs.Outcome.{Judging, Parses};

use expressions::expression_at;
use layout::lay_out;
use nesting::{end_of, first_deep, judged};
use parsing::{Failure, Judgement, MOST, Parsed, Position};

// One whole expression, its rows in words.
fn whole(terminals: &[u8], rows: &mut [u64]) -> Judgement
    requires { length terminals.now ≤ 65536 }
    ensures { Judging expression terminals.now result rows.old rows.new }
{
    let deep = first_deep(terminals);
    let end = end_of(deep, terminals.len());
    let read = expression_at(&terminals[..end], rows, Position { token: 0, row: 0 });
    judged(read, deep, end)
}

// The answer, by way of a word for each terminal: rows never outnumber tokens.
fn parse_in(
    terminals: &[u8],
    words: &mut [u64],
    kinds: &mut [u8],
    tokens: &mut [u32],
    sizes: &mut [u32],
    roles: &mut [u32],
) -> Parsed
    requires { (length terminals.now ≤ 65536) × (length words.old ≡ length terminals.now) }
    ensures { Parses expression terminals.now result words.old kinds.old tokens.old sizes.old roles.old
        words.new kinds.new tokens.new sizes.new roles.new }
{
    let judgement = whole(terminals, words);
    lay_out(judgement, words, kinds, tokens, sizes, roles)
}

// One whole expression by itself: replies 4, 5 and 7, and the node table. The scratch that is used is zeros then.
pub fn parse_expression(
    terminals: &[u8],
    scratch: &mut [u64],
    kinds: &mut [u8],
    tokens: &mut [u32],
    sizes: &mut [u32],
    roles: &mut [u32],
) -> Parsed
    ensures { Parsing expression terminals.now result scratch.old kinds.old tokens.old sizes.old roles.old
        scratch.new kinds.new tokens.new sizes.new roles.new }
{
    let n = terminals.len();
    if n > MOST {
        return Err(Failure::Long);
    }
    if scratch.len() < n {
        return Err(Failure::Scratch(n));
    }
    parse_in(terminals, &mut scratch[..n], kinds, tokens, sizes, roles)
}
