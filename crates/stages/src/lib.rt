// The stages of a check in a straight line, as far as the constants are counted: each is handed how the ones before it ended, and passes a refusal on.
#![tactic(auto)]

ghost use Rattle.std.specs.Prelude.{◌≡◌, get_or, ◌≤◌};
ghost use Rattle.express.specs.Tokens.Lexis.{most};
ghost use Rattle.stages.specs.Line.{count_of};
ghost use Rattle.stages.specs.Reading.{ScansTokens, OfParse, ParsesTokens, ReadsNodes, Constants, FitsConstants};

use parsing::{Failure, Parsed};

// Why a file is refused: the reply, and the number beside it.
#[derive(Clone, Copy, Debug, PartialEq, Eq)]
pub struct Refusal {
    pub reply: u8,
    pub number: u32,
}

// A stage that is done, with a count, or the refusal of it or of one before it.
pub type Stage = Result<usize, Refusal>;

pub fn count(stage: Stage) -> usize
    ensures { result ≡ count_of stage }
{
    stage.unwrap_or(0)
}

// The tokens of a file: replies 1, 2, 3 and 6.
pub fn scan_tokens(src: &[u8], kinds: &mut [u8], starts: &mut [u32], lengths: &mut [u32]) -> Stage
    ensures { ScansTokens src.now kinds.old starts.old lengths.old result
        kinds.new starts.new lengths.new }
{
    let step = scan::scan(src, codes::limits::BYTES, kinds, starts, lengths);
    match step {
        Ok(n) => Ok(n),
        Err(e) => Err(Refusal {
            reply: e.reply(),
            number: columns::number(e.place()),
        }),
    }
}

// Where a token starts; past the last one the end of the bytes.
fn place_or_end(starts: &[u32], token: usize, size: usize) -> u32
    ensures { size ≤ most → result ≡ get_or starts.now token size }
{
    columns::get_or(starts, token, columns::number(size))
}

// What a parse comes to. A list longer than any file, or than the scratch lent, is no file's.
fn of_parse(parsed: Parsed, starts: &[u32], size: usize) -> Stage
    ensures { OfParse starts.now size parsed result }
{
    match parsed {
        Ok(n) => Ok(n),
        Err(failure) => match failure {
            Failure::Unexpected(j) => Err(Refusal {
                reply: codes::replies::UNEXPECTED,
                number: place_or_end(starts, j, size),
            }),
            Failure::TooDeep(k) => Err(Refusal {
                reply: codes::replies::TOO_DEEP,
                number: place_or_end(starts, k, size),
            }),
            Failure::Short(n) => Err(Refusal {
                reply: codes::replies::NODES_SHORT,
                number: columns::number(n),
            }),
            Failure::Scratch(_) => Err(Refusal {
                reply: codes::replies::TOO_LONG,
                number: codes::limits::BYTES,
            }),
            Failure::Long => Err(Refusal {
                reply: codes::replies::TOO_LONG,
                number: codes::limits::BYTES,
            }),
        },
    }
}

// The nodes of a file: replies 4, 5 and 7. The roles stand in the last column.
pub fn parse_tokens(
    before: Stage,
    size: usize,
    starts: &[u32],
    terminals: &[u8],
    scratch: &mut [u64],
    kinds: &mut [u8],
    tokens: &mut [u32],
    sizes: &mut [u32],
    roles: &mut [u32],
) -> Stage
    ensures { ParsesTokens before size starts.now terminals.now scratch.old
        kinds.old tokens.old sizes.old roles.old result
        scratch.new kinds.new tokens.new sizes.new roles.new }
{
    before?;
    let parsed = declarations::parse(terminals, scratch, kinds, tokens, sizes, roles);
    of_parse(parsed, starts, size)
}

// From the tokens of a file to its nodes: the terminals of the tokens, and the parse of these.
pub fn read_nodes(
    before: Stage,
    src: &[u8],
    token_kinds: &[u8],
    starts: &[u32],
    lengths: &[u32],
    terminals: &mut [u8],
    scratch: &mut [u64],
    kinds: &mut [u8],
    tokens: &mut [u32],
    sizes: &mut [u32],
    roles: &mut [u32],
) -> Stage
    ensures { ReadsNodes src.now before token_kinds.now starts.now lengths.now terminals.old
        scratch.old kinds.old tokens.old sizes.old roles.old result
        terminals.new scratch.new kinds.new tokens.new sizes.new roles.new }
{
    terminals::terminals(src, token_kinds, starts, lengths, terminals);
    let n = token_kinds.len().min(terminals.len());
    parse_tokens(
        before,
        src.len(),
        starts,
        &terminals[..n],
        scratch,
        kinds,
        tokens,
        sizes,
        roles,
    )
}

// How many constants there are.
fn count_constants(kinds: &[u8]) -> usize
    ensures { Constants kinds.now result }
{
    kinds
        .iter()
        .filter(|kind| **kind == codes::nodes::CONSTANT)
        .count()
}

// Room for a row for each constant: reply 8.
pub fn fit_constants(before: Stage, kinds: &[u8], entries: usize) -> Stage
    ensures { FitsConstants before kinds.now entries result }
{
    before?;
    let n = count_constants(kinds);
    if n <= entries {
        return Ok(n);
    }
    Err(Refusal {
        reply: codes::replies::ANSWERS_SHORT,
        number: columns::number(n),
    })
}
