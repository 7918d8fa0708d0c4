// Answers as records: a lent slice of them, filled from the three number columns of the answer table.
#![tactic(auto)]

ghost use Rattle.std.specs.Prelude.{◌≡◌, length, get_or};
ghost use Rattle.records.specs.Rows.{zeros, answers, filled};

// A row of the answer table, in memory as C lays it out.
#[repr(C)]
#[derive(Clone, Copy, Default)]
pub struct Answer {
    pub kind: u8,
    pub number: i64,
    pub length: u8,
}

// The rows of the answer table, lent as its three columns: so many of them count.
#[derive(Clone, Copy)]
pub struct Rows<'a> {
    pub kinds: &'a [u8],
    pub numbers: &'a [i64],
    pub lengths: &'a [u8],
    pub count: usize,
}

impl<'a> Rows<'a> {
    // The row at an index, of those that count; zeros past them.
    pub fn at(&self, i: usize) -> Answer
        ensures { result ≡ get_or (answers self.now) i zeros }
    {
        let (kinds, numbers, lengths) = (self.kinds, self.numbers, self.lengths);
        let entries = kinds.len().min(numbers.len()).min(lengths.len());
        if i < entries.min(self.count) {
            return Answer {
                kind: kinds[i],
                number: numbers[i],
                length: lengths[i],
            };
        }
        Answer::default()
    }
}

// The first `count` rows, as far as they fit, and zeros behind them.
pub fn fill<'a>(
    kinds: &'a [u8],
    numbers: &'a [i64],
    lengths: &'a [u8],
    count: usize,
    out: &mut [Answer],
)
    ensures { out.new ≡ filled kinds.now numbers.now lengths.now count (length out.old) }
{
    let rows = Rows {
        kinds,
        numbers,
        lengths,
        count,
    };
    for i in 0..out.len() {
        out[i] = rows.at(i);
    }
}
