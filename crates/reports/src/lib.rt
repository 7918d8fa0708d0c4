// The report of a check, and zeros behind what stands in each table.
#![tactic(auto)]

ghost use Rattle.std.specs.Prelude.{◌≡◌};
ghost use Rattle.stages.specs.Line.{kept_of};
ghost use Rattle.reports.specs.Reporting.{Reports, ClearsTokens, ClearsNodes, ClearsAnswers};

use columns::{clear, number};
use stages::Stage;

// What is answered: the reply and the number beside it, and how many tokens, nodes and constants there are, 0 after a refusal.
#[derive(Clone, Copy)]
pub struct Report {
    pub reply: u8,
    pub number: u32,
    pub tokens: u32,
    pub nodes: u32,
    pub constants: u32,
}

// The entries of a table that stand: none after a refusal.
pub fn kept(last: Stage, entries: usize) -> usize
    ensures { result ≡ kept_of last entries }
{
    match last {
        Ok(_) => entries,
        Err(_) => 0,
    }
}

pub fn summary(tokens: usize, nodes: usize, last: Stage) -> Report
    ensures { Reports tokens nodes last result }
{
    match last {
        Ok(n) => Report {
            reply: codes::replies::ACCEPTED,
            number: 0,
            tokens: number(tokens),
            nodes: number(nodes),
            constants: number(n),
        },
        Err(refusal) => Report {
            reply: refusal.reply,
            number: refusal.number,
            tokens: 0,
            nodes: 0,
            constants: 0,
        },
    }
}

// Form kept: (d) the three tables have other numbers and types of columns, each with a zero of its own: one function would ask for all of them.
pub fn clear_tokens(kinds: &mut [u8], starts: &mut [u32], lengths: &mut [u32], from: usize)
    ensures { ClearsTokens from kinds.old starts.old lengths.old
        kinds.new starts.new lengths.new }
{
    clear(kinds, from, 0);
    clear(starts, from, 0);
    clear(lengths, from, 0);
}

pub fn clear_nodes(
    kinds: &mut [u8],
    tokens: &mut [u32],
    sizes: &mut [u32],
    bindings: &mut [u32],
    from: usize,
)
    ensures { ClearsNodes from kinds.old tokens.old sizes.old bindings.old
        kinds.new tokens.new sizes.new bindings.new }
{
    clear(kinds, from, 0);
    clear(tokens, from, 0);
    clear(sizes, from, 0);
    clear(bindings, from, 0);
}

pub fn clear_answers(kinds: &mut [u8], numbers: &mut [i64], lengths: &mut [u8], from: usize)
    ensures { ClearsAnswers from kinds.old numbers.old lengths.old
        kinds.new numbers.new lengths.new }
{
    clear(kinds, from, 0);
    clear(numbers, from, 0);
    clear(lengths, from, 0);
}
