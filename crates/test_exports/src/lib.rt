// The proved functions under the names by which Rust and C call them. A number passes as itself, a slice as a pointer and a
// length; what has a reply (a reading step, a parse, a typing, the names of a file) as its reply, returned, and its number,
// written to a place of the caller's; any other enum as one number.
#![tactic(auto)]

pub mod arithmetic;
pub mod binaries;
pub mod graphs;
pub mod kinds;
pub mod logicals;
pub mod naming;
pub mod operators;
pub mod texts;

ghost use Rattle.std.specs.Prelude.{◌≡◌, length as size, take, drop};
ghost use Rattle.std.proofs.lemmas.List.Edits.{sets};
ghost use Rattle.express.specs.Tokens.Lexis.{integer_value, binary_value, string_value};
ghost use Rattle.express.specs.Tokens.Terminal.{terminals};
ghost use Rattle.literals.specs.Literal.{capped};
ghost use Rattle.blanks.specs.Step.{reading};
ghost use Rattle.parsing.specs.Parsing as Parsing;
ghost use Rattle.test_exports.specs.Reply.{reply, number, Scans, Parses};

fn reply_of(step: Result<usize, blanks::Refusal>) -> u8
    ensures { result ≡ reply (reading step) }
{
    match step {
        Ok(_) => codes::replies::ACCEPTED,
        Err(e) => e.reply(),
    }
}

fn number_of(step: Result<usize, blanks::Refusal>) -> usize
    ensures { result ≡ number (reading step) }
{
    match step {
        Ok(p) => p,
        Err(e) => e.place(),
    }
}

#[unsafe(no_mangle)]
pub extern "C" fn woffulent_scan(
    src: &[u8],
    limit: u32,
    kinds: &mut [u8],
    starts: &mut [u32],
    lengths: &mut [u32],
    count: &mut usize,
) -> u8
    ensures { Scans limit src.now kinds.old starts.old lengths.old result
        count.new kinds.new starts.new lengths.new }
{
    let step = scan::scan(src, limit, kinds, starts, lengths);
    *count = number_of(step);
    reply_of(step)
}

#[unsafe(no_mangle)]
pub extern "C" fn woffulent_integer(s: &[u8], start: usize, length: usize) -> u64
    ensures { result ≡ capped (integer_value (take length (drop start s.now))) }
{
    literals::integer(s, start, length)
}

#[unsafe(no_mangle)]
pub extern "C" fn woffulent_binary(s: &[u8], start: usize, length: usize) -> u64
    ensures { result ≡ capped (binary_value (take length (drop start s.now))) }
{
    literals::binary(s, start, length)
}

#[unsafe(no_mangle)]
pub extern "C" fn woffulent_string_length(s: &[u8], start: usize, length: usize) -> usize
    ensures { result ≡ size (string_value (take length (drop start s.now))) }
{
    literals::string_length(s, start, length)
}

#[unsafe(no_mangle)]
pub extern "C" fn woffulent_string_bytes(
    s: &[u8],
    start: usize,
    length: usize,
    out: &mut [u8],
    at: usize,
) -> usize
    ensures { (result ≡ size (string_value (take length (drop start s.now))))
        × (out.new ≡ sets out.old at (string_value (take length (drop start s.now)))) }
{
    literals::string_bytes(s, start, length, out, at)
}

#[unsafe(no_mangle)]
pub extern "C" fn woffulent_terminals(
    src: &[u8],
    kinds: &[u8],
    starts: &[u32],
    lengths: &[u32],
    out: &mut [u8],
)
    ensures { out.new ≡ sets out.old 0 (terminals src.now kinds.now starts.now lengths.now) }
{
    terminals::terminals(src, kinds, starts, lengths, out);
}

// Scratch that is too short is no reply of the checker.
const SCRATCH_SHORT: u8 = 255;

fn parse_reply(parsed: parsing::Parsed) -> u8
    ensures { result ≡ Parsing.reply parsed }
{
    match parsed {
        Ok(_) => codes::replies::ACCEPTED,
        Err(failure) => match failure {
            parsing::Failure::Unexpected(_) => codes::replies::UNEXPECTED,
            parsing::Failure::TooDeep(_) => codes::replies::TOO_DEEP,
            parsing::Failure::Short(_) => codes::replies::NODES_SHORT,
            parsing::Failure::Scratch(_) => SCRATCH_SHORT,
            parsing::Failure::Long => codes::replies::TOO_LONG,
        },
    }
}

fn parse_number(parsed: parsing::Parsed) -> usize
    ensures { result ≡ Parsing.token_or_count parsed }
{
    match parsed {
        Ok(n) => n,
        Err(failure) => match failure {
            parsing::Failure::Unexpected(j) => j,
            parsing::Failure::TooDeep(k) => k,
            parsing::Failure::Short(n) => n,
            parsing::Failure::Scratch(n) => n,
            parsing::Failure::Long => parsing::MOST,
        },
    }
}

#[unsafe(no_mangle)]
pub extern "C" fn woffulent_parse(
    list: &[u8],
    scratch: &mut [u64],
    kinds: &mut [u8],
    tokens: &mut [u32],
    sizes: &mut [u32],
    roles: &mut [u32],
    count: &mut usize,
) -> u8
    ensures { Parses list.now result count.new scratch.old kinds.old tokens.old sizes.old roles.old
        scratch.new kinds.new tokens.new sizes.new roles.new }
{
    let parsed = declarations::parse(list, scratch, kinds, tokens, sizes, roles);
    *count = parse_number(parsed);
    parse_reply(parsed)
}
