// Where the strings of answer rows lie in the room.
#![tactic(auto)]

ghost use Rattle.string_places.specs.Places.{PlacesStrings};

// Rows are numbered with 32 bits; the bytes of so many strings can be counted.
const MOST: usize = 4294967296;

// Each row that holds a string gets its start in the room, where the strings of the rows before it end; how many bytes all of them take.
pub fn place_strings(kinds: &[u8], numbers: &mut [i64], lengths: &[u8], rows: usize) -> usize
    ensures { PlacesStrings kinds.now numbers.old lengths.now rows numbers.new result }
{
    let mut start: usize = 0;
    for i in 0..rows.min(MOST) {
        if columns::get_or(kinds, i, 0) == codes::answers::STRING {
            columns::put(numbers, i, start as i64);
            start += columns::byte_index(columns::get_or(lengths, i, 0));
        }
    }
    start
}
