// The listing of an outcome, part by part: each part is as many whole lines as fit into a lent buffer.
#![tactic(auto)]

ghost use Rattle.std.specs.Prelude.{◌≡◌, ◌≤◌, ◌+◌, min, length};
ghost use Rattle.records.specs.Rows.{answers};
ghost use Rattle.lines.specs.Print.{Prints, table};
ghost use Rattle.listing_parts.specs.Parts.{head_line, PrintsAnswer, Parts, FirstPart};

use lines::{Columns, Short};
use records::Rows;

// Where a part ends: in the buffer; after how many answers; and the node from which on the other constants come.
#[derive(Clone, Copy, Default)]
pub struct Place {
    pub at: usize,
    pub line: usize,
    pub node: usize,
}

// The first line, by the reply.
fn head(out: &mut [u8], reply: u8, number: usize, constants: usize) -> Result<usize, Short>
    ensures { Prints (head_line reply number constants) out.old out.new result }
{
    if reply == codes::replies::ACCEPTED {
        lines::accepted(out, constants)
    } else {
        lines::refused(out, reply, number)
    }
}

// The node behind a node, or the number of nodes.
fn behind(node: usize, nodes: usize) -> usize
    ensures { result ≡ min (node + 1) nodes }
{
    if node < nodes { node + 1 } else { nodes }
}

// What the lines of an outcome's constants are made of: the columns of the file, the rows of its answers, and the bytes of strings.
#[derive(Clone, Copy)]
pub struct Listing<'a> {
    pub columns: Columns<'a>,
    pub rows: Rows<'a>,
    pub room: &'a [u8],
}

impl<'a> Listing<'a> {
    // The line of an answer by its index, and the constant at a node.
    fn line_at(&self, out: &mut [u8], line: usize, node: usize) -> Result<usize, Short>
        ensures { PrintsAnswer (table self.now.columns) self.now.room.now (answers self.now.rows) line node out.old out.new result }
    {
        let answer = self.rows.at(line);
        self.columns.put_line(out, self.room, node, answer)
    }

    // From a place on, as many whole lines as fit.
    fn part(&self, out: &mut [u8], from: Place) -> Place
        requires { from.at ≤ length out.old }
        ensures { Parts (table self.now.columns) self.now.room.now (answers self.now.rows) self.now.rows.count out.old from out.new result }
    {
        let mut at = from.at;
        let mut node = from.node;
        for line in from.line..self.rows.count {
            let here = self.columns.next_constant(node);
            let written = self.line_at(&mut out[at..], line, here);
            let Ok(length) = written else {
                return Place { at, line, node };
            };
            at += length;
            node = behind(here, self.columns.kinds.len());
        }
        Place {
            at,
            line: from.line.max(self.rows.count),
            node,
        }
    }

    // The first part of the listing: its first line, and as many lines of constants as fit behind it.
    pub fn first_part(&self, out: &mut [u8], reply: u8, number: usize) -> Place
        ensures { FirstPart (table self.now.columns) self.now.room.now (answers self.now.rows) reply number self.now.rows.count out.old out.new result }
    {
        let written = head(out, reply, number, self.rows.count);
        let Ok(length) = written else {
            return Place::default();
        };
        let from = Place {
            at: length,
            line: 0,
            node: 0,
        };
        self.part(out, from)
    }

    // A later part: as many lines as fit, from an answer and a node on.
    pub fn next_part(&self, out: &mut [u8], line: usize, node: usize) -> Place
        ensures { Parts (table self.now.columns) self.now.room.now (answers self.now.rows) self.now.rows.count
            out.old (record { at = 0; line = line; node = node }) out.new result }
    {
        self.part(out, Place { at: 0, line, node })
    }
}
