// Lent columns: a number stored as far as it fits, zeros from an index on, and the cast of an index.
#![tactic(auto)]

ghost use Rattle.std.specs.Prelude.{◌≡◌, ◌≤◌, ◌<◌, get_or, set};
ghost use Rattle.columns.specs.Column.{cleared};

// A 32-bit number as an index.
pub fn index(x: u32) -> usize
    ensures { result ≡ x }
{
    x as usize
}

// An index, or a count, as a 32-bit number: itself, where it fits.
pub fn number(x: usize) -> u32
    ensures { x < 4294967296 → result ≡ x }
{
    (x % 4294967296) as u32
}

// A byte as an index, of a table of 256 entries.
pub fn byte_index(b: u8) -> usize
    ensures { (result ≡ b) × (result ≤ 255) }
{
    b as usize
}

// Stores a value at an index; past the column's end nothing changes.
pub fn put<T: Copy>(column: &mut [T], at: usize, value: T)
    ensures { column.new ≡ set column.old at value }
{
    if at < column.len() {
        column[at] = value;
    }
}

// The value at an index; past the column's end the one given.
pub fn get_or<T: Copy>(column: &[T], at: usize, default: T) -> T
    ensures { result ≡ get_or column.now at default }
{
    column.get(at).copied().unwrap_or(default)
}

// One value from an index on.
pub fn clear<T: Copy>(column: &mut [T], from: usize, zero: T)
    ensures { column.new ≡ cleared zero from column.old }
{
    for i in from..column.len() {
        column[i] = zero;
    }
}
