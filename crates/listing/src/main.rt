// The program: a file from the standard input, its listing to the standard output (R12).
#![tactic(auto)]

use checker::check;
use columns::index;
use lines::Columns;
use listing_io::{print, read_input};
use listing_parts::Listing;
use records::Rows;
use std::io;
use std::io::Write;

// One byte more than a file may have: so much is enough to refuse it.
const BYTES: usize = 65537;

const TOKENS: usize = 8192;

const NODES: usize = 8192;

const ANSWERS: usize = 1024;

// Room for the strings of any file: no answer has more bytes.
const ROOM: usize = ANSWERS * codes::limits::STRING_BYTES;

// A buffer for any line: three names, each no longer than the file, or two and an answer.
const LINES: usize = 262144;

// The listing of the columns.
fn print_columns<'a, W: Write>(
    output: &mut W,
    out: &mut [u8],
    text: &'a [u8],
    starts: &'a [u32],
    lengths: &'a [u32],
    kinds: &'a [u8],
    tokens: &'a [u32],
    answer_kinds: &'a [u8],
    answer_numbers: &'a [i64],
    answer_lengths: &'a [u8],
    room: &'a [u8],
    reply: u8,
    number: usize,
    constants: usize,
) -> io::Result<()> {
    let columns = Columns {
        text,
        starts,
        lengths,
        kinds,
        tokens,
    };
    let rows = Rows {
        kinds: answer_kinds,
        numbers: answer_numbers,
        lengths: answer_lengths,
        count: constants,
    };
    let listing = Listing {
        columns,
        rows,
        room,
    };
    print(output, out, &listing, reply, number)
}

// The listing of a file.
fn list<W: Write>(output: &mut W, src: &[u8]) -> io::Result<()> {
    let mut token_kinds = [0u8; TOKENS];
    let mut token_starts = [0u32; TOKENS];
    let mut token_lengths = [0u32; TOKENS];
    let mut node_kinds = [0u8; NODES];
    let mut node_tokens = [0u32; NODES];
    let mut node_sizes = [0u32; NODES];
    let mut node_bindings = [0u32; NODES];
    let mut answer_kinds = [0u8; ANSWERS];
    let mut answer_numbers = [0i64; ANSWERS];
    let mut answer_lengths = [0u8; ANSWERS];
    let mut room = [0u8; ROOM];
    let report = check(
        src,
        &mut token_kinds,
        &mut token_starts,
        &mut token_lengths,
        &mut node_kinds,
        &mut node_tokens,
        &mut node_sizes,
        &mut node_bindings,
        &mut answer_kinds,
        &mut answer_numbers,
        &mut answer_lengths,
        &mut room,
    );
    let mut out = [0u8; LINES];
    print_columns(
        output,
        &mut out,
        src,
        &token_starts,
        &token_lengths,
        &node_kinds,
        &node_tokens,
        &answer_kinds,
        &answer_numbers,
        &answer_lengths,
        &room,
        report.reply,
        index(report.number),
        index(report.constants),
    )
}

fn complain<W: Write>(errors: &mut W, what: &[u8]) {
    let _ = errors.write_all(what);
}

fn main(rt: HostRuntime) {
    let mut src = [0u8; BYTES];
    let Ok(length) = read_input(&mut rt.stdin(), &mut src) else {
        complain(
            &mut rt.stderr(),
            b"listing: the standard input cannot be read\n",
        );
        return;
    };
    if list(&mut rt.stdout(), &src[..length]).is_err() {
        complain(
            &mut rt.stderr(),
            b"listing: the standard output cannot be written\n",
        );
    }
}
