// The rows of a parse, which stand in words, laid out in columns.
#![tactic(auto)]

ghost use Rattle.std.specs.Prelude.{◌≡◌, ℕ, ◌<◌, ◌^◌};
ghost use Rattle.parsing.specs.Outcome.{answered, kind_in, role_in, token_in, size_in, unpacked, LaysOut};

use parsing::{Failure, Judgement, Parsed};

// The parts of a word.
fn kind_of(w: u64) -> u8
    ensures { result ≡ kind_in w }
{
    (w % codes::labels::ROLE) as u8
}

fn role_of(w: u64) -> u32
    ensures { result ≡ role_in w }
{
    (w / codes::labels::ROLE % codes::labels::ROLE) as u32
}

fn token_of(w: u64) -> u32
    ensures { result ≡ token_in w }
{
    (w / parsing::TOKEN_UNIT % parsing::PLACES) as u32
}

fn size_of(w: u64) -> u32
    ensures { result ≡ size_in w }
{
    (w / parsing::SIZE_UNIT % parsing::PLACES) as u32
}

// A part of each of the first n words, in a column as far as it goes: a column by itself is filled without a test at each entry.
fn unpack<T: Copy, F: Fn(u64) -> T>(words: &[u64], n: usize, column: &mut [T], part: F)
    requires { F.IsAlwaysCallable part }
    ensures { (f : ℕ → _) → ((w : ℕ) (v : _) → w < 2 ^ 64 → F.post part w v → v ≡ f w) → column.new ≡ unpacked f n words.now column.old }
{
    for i in 0..n.min(words.len().min(column.len())) {
        column[i] = part(words[i]);
    }
}

// A judgement as an answer, for columns of which the shortest has `room` entries.
fn answered(judgement: Judgement, room: usize) -> Parsed
    ensures { result ≡ answered room judgement }
{
    let n = judgement?;
    if n > room {
        return Err(Failure::Short(n));
    }
    Ok(n)
}

// THE TAIL OF EVERY PARSE: the answer, and the rows laid out in the columns as far as they fit; the words are zeros then.
pub fn lay_out(
    judgement: Judgement,
    words: &mut [u64],
    kinds: &mut [u8],
    tokens: &mut [u32],
    sizes: &mut [u32],
    roles: &mut [u32],
) -> Parsed
    ensures { LaysOut judgement result words.old kinds.old tokens.old sizes.old roles.old
        words.new kinds.new tokens.new sizes.new roles.new }
{
    let room = kinds
        .len()
        .min(tokens.len().min(sizes.len().min(roles.len())));
    let n = judgement.unwrap_or(0);
    unpack(words, n, kinds, kind_of);
    unpack(words, n, tokens, token_of);
    unpack(words, n, sizes, size_of);
    unpack(words, n, roles, role_of);
    columns::clear(words, 0, 0);
    answered(judgement, room)
}
