// Whole files: their schemas, one after the other, to node columns.
#![tactic(auto)]

ghost use Rattle.std.specs.Prelude.{◌≤◌, ◌≡◌, length};
ghost use Rattle.ebnf.specs.Grammar.{star, nt};
ghost use Rattle.express.specs.Syntax.Grammar.{file, schema, ◌·◌};
ghost use Rattle.parsing.specs.Reading.{Ready, Reads, Steps};
ghost use Rattle.parsing.specs.Parsing.{Parsing};
ghost use Rattle.parsing.specs.Outcome.{Judging, Parses};

use clauses::schema_at;
use codes::labels;
use columns::get_or;
use layout::lay_out;
use nesting::{end_of, first_deep, judged};
use parsing::{Failure, Judgement, MOST, Parsed, Position, Read, put_row};

// One or more schemas.
fn schemas(terminals: &[u8], rows: &mut [u64], from: Position) -> Read
    requires { Ready terminals.now from.token from.row }
    ensures { Steps (nt schema · star (nt schema)) terminals.now from.token from.row result rows.old rows.new }
{
    let mut at = schema_at(terminals, rows, from)?;
    while get_or(terminals, at.token, codes::NONE) == codes::SCHEMA {
        at = schema_at(terminals, rows, at)?;
    }
    Ok(at)
}

// schema { schema }
fn file(terminals: &[u8], rows: &mut [u64]) -> Read
    requires { Ready terminals.now 0 0 }
    ensures { Reads file terminals.now 0 0 result rows.old rows.new }
{
    let all = schemas(terminals, rows, Position { token: 0, row: 0 })?;
    put_row(rows, all.row, 0, labels::FILE, 0);
    Ok(Position {
        row: all.row + 1,
        ..all
    })
}

// A whole file, its rows in words.
fn whole(terminals: &[u8], rows: &mut [u64]) -> Judgement
    requires { length terminals.now ≤ 65536 }
    ensures { Judging file terminals.now result rows.old rows.new }
{
    let deep = first_deep(terminals);
    let end = end_of(deep, terminals.len());
    let read = file(&terminals[..end], rows);
    judged(read, deep, end)
}

// The answer, by way of a word for each terminal: rows never outnumber tokens.
fn parse_in(
    terminals: &[u8],
    words: &mut [u64],
    kinds: &mut [u8],
    tokens: &mut [u32],
    sizes: &mut [u32],
    roles: &mut [u32],
) -> Parsed
    requires { (length terminals.now ≤ 65536) × (length words.old ≡ length terminals.now) }
    ensures { Parses file terminals.now result words.old kinds.old tokens.old sizes.old roles.old
        words.new kinds.new tokens.new sizes.new roles.new }
{
    let judgement = whole(terminals, words);
    lay_out(judgement, words, kinds, tokens, sizes, roles)
}

// THE PARSE of a whole file: replies 4, 5 and 7, and the node table. The scratch that is used is zeros then.
pub fn parse(
    terminals: &[u8],
    scratch: &mut [u64],
    kinds: &mut [u8],
    tokens: &mut [u32],
    sizes: &mut [u32],
    roles: &mut [u32],
) -> Parsed
    ensures { Parsing file terminals.now result scratch.old kinds.old tokens.old sizes.old roles.old
        scratch.new kinds.new tokens.new sizes.new roles.new }
{
    let n = terminals.len();
    if n > MOST {
        return Err(Failure::Long);
    }
    if scratch.len() < n {
        return Err(Failure::Scratch(n));
    }
    parse_in(terminals, &mut scratch[..n], kinds, tokens, sizes, roles)
}
