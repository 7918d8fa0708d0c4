// The row of each constant in the answer columns, and the parts of an order of declarations that go to each schema.
#![tactic(auto)]

pub mod parts;

ghost use Rattle.constant_rows.specs.Numbering.{Fills, NumbersRows};

use tree::next_of_kind;

// One number in the entries from one up to another, which is not among them.
fn fill(column: &mut [u32], from: usize, to: usize, value: u32)
    ensures { Fills value from to column.old column.new }
{
    let end = to.min(column.len());
    for i in from..end {
        column[i] = value;
    }
}

// The row of each constant by its node: how many constants stand before it. The nodes up to a constant have one number.
pub fn number_rows(kinds: &[u8], row_of: &mut [u32])
    ensures { NumbersRows kinds.now row_of.old row_of.new }
{
    let mut n: usize = 0;
    let mut rows: usize = 0;
    while n < kinds.len() {
        let constant = next_of_kind(kinds, codes::nodes::CONSTANT, n);
        let end = constant.min(kinds.len() - 1) + 1;
        fill(row_of, n, end, columns::number(rows));
        rows += 1;
        n = end;
    }
}
