// What a reader gives into a lent buffer, and a listing to a writer, by what the traits `Read` and `Write` of std promise.
#![tactic(auto)]

ghost use Rattle.std.specs.Prelude.{◌≤◌, length, IfOk, OnOk};
ghost use Rattle.std.specs.Io.KnownBytes.{Appends};
ghost use Rattle.listing_io.specs.Written.{rest, all_lines};

use listing_parts::Listing;
use std::io;
use std::io::{Read, Write};

// The input to its end, or as much of it as the buffer holds: so many bytes.
pub fn read_input<R: Read>(input: &mut R, buffer: &mut [u8]) -> io::Result<usize>
    ensures { IfOk result (λ n. n ≤ length buffer.new) }
{
    let mut done = 0;
    while done < buffer.len() {
        let more = input.read(&mut buffer[done..])?;
        if more == 0 {
            return Ok(done);
        }
        done += more;
    }
    Ok(done)
}

// What is answered where the buffer is too short for a line.
fn too_short() -> io::Error {
    io::Error::other("a line is longer than the buffer")
}

// The lines from an answer and a node on, each part written before the next is made.
fn print_rest<W: Write>(
    output: &mut W,
    out: &mut [u8],
    listing: &Listing,
    from: usize,
    from_node: usize,
) -> io::Result<()>
    ensures { OnOk result (Appends (W.contents output.old) (W.contents output.new) (rest listing.now from from_node)) }
{
    let mut line = from;
    let mut node = from_node;
    while line < listing.rows.count {
        let next = listing.next_part(out, line, node);
        if next.line <= line {
            return Err(too_short());
        }
        let end = next.at;
        output.write_all(&out[..end])?;
        line = next.line;
        node = next.node;
    }
    Ok(())
}

// The listing of an outcome. A line is written with its part, or not at all.
pub fn print<W: Write>(
    output: &mut W,
    out: &mut [u8],
    listing: &Listing,
    reply: u8,
    number: usize,
) -> io::Result<()>
    ensures { OnOk result (Appends (W.contents output.old) (W.contents output.new) (all_lines listing.now reply number)) }
{
    let first = listing.first_part(out, reply, number);
    let end = first.at;
    if end == 0 {
        return Err(too_short());
    }
    output.write_all(&out[..end])?;
    print_rest(output, out, listing, first.line, first.node)
}
