// What the names of a file come to: its roles as bytes, whether there is room for the stages, and the answer after them.
#![tactic(auto)]

ghost use Rattle.std.specs.Prelude.{◌≡◌, min, length, take};
ghost use Rattle.std.proofs.lemmas.List.Edits.{sets};
ghost use Rattle.resolutions.specs.Answer.{Narrows, StageRoom, Finishes};
ghost use Rattle.resolutions.specs.declared.Refusal.TheVariants as refusal;
ghost use Rattle.scopes.specs.Preparation.{Decides};

use faults::Fault;
use scopes::dictionary::Unfit;

// Words of scratch that the search for an order needs for a declaration.
const SEARCH_WORDS: usize = 6;

// The numbers of declarations are below this one: they are stamps of a table by symbol.
const MOST_DECLARATIONS: usize = 32767;

const WORD: u64 = 4294967296;

// The numbers of a byte are below this one.
const BYTE: u32 = 256;

// A name for every two tokens, or fewer.
const TOKENS_OF_ARC: usize = 2;

// Why names are not bound: one is at fault; or the lent columns are too short, or fit no file.
#[derive(Clone, Copy, Debug, PartialEq, Eq)]
pub enum Refusal {
    Faulty(Fault),
    Unfit,
}

impl From<Unfit> for Refusal {
    ghost from_gives = { λ _ r. r ≡ refusal.Unfit };

    fn from(_unfit: Unfit) -> Refusal {
        Refusal::Unfit
    }
}

// Copies roles to the front of a column of bytes: false where it is too short, or a role is no byte, which the bits of all of them tell at the end.
pub fn narrow(roles: &[u32], bytes: &mut [u8]) -> bool
    ensures { Narrows roles.now (length bytes.old) result bytes.new }
{
    if bytes.len() < roles.len() {
        return false;
    }
    let mut all: u32 = 0;
    for i in 0..roles.len() {
        let role = roles[i];
        bytes[i] = (role % BYTE) as u8;
        all = all | role;
    }
    all < BYTE
}

// Copies as many entries of a column of bytes as both have to the front of another column.
pub fn widen(bytes: &[u8], into: &mut [u32])
    ensures { into.new ≡ sets into.old 0 (take (min (length bytes.now) (length into.old)) bytes.now) }
{
    let end = bytes.len().min(into.len());
    for i in 0..end {
        into[i] = bytes[i] as u32;
    }
}

// Is there room in every column of the stages, for so many tokens and declarations?
pub fn room(
    tokens: usize,
    vertices: usize,
    first: usize,
    to: usize,
    types: usize,
    constants: usize,
    scratch: usize,
) -> bool
    ensures { Decides (StageRoom tokens vertices first to types constants scratch) result }
{
    vertices < MOST_DECLARATIONS
        && (to as u64) < WORD
        && vertices < first
        && SEARCH_WORDS * vertices <= scratch
        && tokens < (scratch - vertices).min(TOKENS_OF_ARC * to + 1)
        && vertices <= types.min(constants)
}

// The answer to a fault: the roles are put back into the column of bindings.
pub fn finish(fault: Option<Fault>, roles: &[u8], bindings: &mut [u32]) -> Result<(), Refusal>
    ensures { Finishes fault roles.now bindings.old result bindings.new }
{
    let fine = faults::is_fine(fault);
    if fine {
        return Ok(());
    }
    match fault {
        None => Ok(()),
        Some(fault) => {
            widen(roles, bindings);
            Err(Refusal::Faulty(fault))
        }
    }
}
