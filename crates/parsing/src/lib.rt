// What is common to every parse: rows of nodes packed into words, the steps of a reader, and what a whole list comes to.
#![tactic(auto)]

ghost use Rattle.std.specs.Prelude.{◌≡◌, ◌+◌, ◌-◌, set};
ghost use Rattle.parsing.specs.Reading.{word, Expects, is_place};
ghost use Rattle.parsing.specs.Outcome.{failure_of};

// A list that is read has no more terminals than a file has bytes.
pub const MOST: usize = codes::limits::BYTES as usize;

// A row's word has its kind and role in 16 bits, then its naming token and its size in 20 bits each.
pub const TOKEN_UNIT: u64 = 65536;

pub const PLACES: u64 = 1048576;

pub const SIZE_UNIT: u64 = TOKEN_UNIT * PLACES;

// No row has this kind and role.
pub const NO_LABEL: u64 = 0;

// Where a reader goes on: at the next token, with the next row.
#[derive(Clone, Copy, Debug, PartialEq, Eq)]
pub struct Position {
    pub token: usize,
    pub row: usize,
}

// The token that cannot stand.
#[derive(Clone, Copy, Debug, PartialEq, Eq)]
pub struct Unexpected {
    pub token: usize,
}

pub type Read = Result<Position, Unexpected>;

// A token of one terminal, which leaves no row.
pub fn expect(terminals: &[u8], at: Position, code: u8) -> Read
    ensures { Expects code terminals.now at.token at.row result }
{
    if terminals.get(at.token).copied() == Some(code) {
        Ok(Position {
            token: at.token + 1,
            ..at
        })
    } else {
        Err(Unexpected { token: at.token })
    }
}

// A place that a reader may be given: within a list that is not too long, with no more rows before it than tokens.
pub fn is_place(terminals: &[u8], at: Position) -> bool
    ensures { result ≡ is_place terminals.now at.token at.row }
{
    terminals.len() <= MOST && at.token <= terminals.len() && at.row <= at.token
}

// A row in one word, each part as far as its bits go.
fn packed(label: u64, token: usize, size: usize) -> u64
    ensures { result ≡ word label token size }
{
    label % TOKEN_UNIT + TOKEN_UNIT * (token as u64 % PLACES) + SIZE_UNIT * (size as u64 % PLACES)
}

// Stores a row over the rows from `first` on, itself among them; past the table's end nothing changes.
pub fn put_row(rows: &mut [u64], at: usize, first: usize, label: u64, name: usize)
    ensures { rows.new ≡ set rows.old at (word label name (at + 1 - first)) }
{
    if at < rows.len() {
        rows[at] = packed(label, name, (at + 1).saturating_sub(first));
    }
}

// ---- a whole list of terminals

// Why a list is refused: by the token that cannot stand, which is reply 4, or by one that opens a bracket too many, which is reply 5.
#[derive(Clone, Copy, Debug, PartialEq, Eq)]
pub enum Refusal {
    Unexpected(usize),
    TooDeep(usize),
}

// What a list comes to: the number of its rows.
pub type Judgement = Result<usize, Refusal>;

// Why there is no node table: the token refused by 4 or by 5; the entries that 7 asks for; the words of scratch that are needed; or a list of more
// terminals than a file has bytes, which is reply 1.
#[derive(Clone, Copy, Debug, PartialEq, Eq)]
pub enum Failure {
    Unexpected(usize),
    TooDeep(usize),
    Short(usize),
    Scratch(usize),
    Long,
}

impl From<Refusal> for Failure {
    ghost from_gives = { λ refusal failure. failure ≡ failure_of refusal };

    fn from(refusal: Refusal) -> Failure {
        match refusal {
            Refusal::Unexpected(token) => Failure::Unexpected(token),
            Refusal::TooDeep(token) => Failure::TooDeep(token),
        }
    }
}

// The public answer: the number of nodes.
pub type Parsed = Result<usize, Failure>;
