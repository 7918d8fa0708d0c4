// Tokens to terminals: reserved words and symbols by a perfect hash.
#![tactic(auto)]

mod table;

ghost use Rattle.std.specs.Prelude.{◌≡◌, true, false, [], ◌∷◌, ◌+◌, ◌-◌, ◌≤◌, ◌<◌, min, length, take, drop, get_or};
ghost use Rattle.std.proofs.lemmas.List.Edits.{sets};
ghost use Rattle.express.specs.Tokens.Bytes.{same as same_bytes};
ghost use Rattle.express.specs.Tokens.Terminal.{the, identifier, word_terminal, symbol_terminal, terminal_of, terminals as terminal-list};
ghost use Rattle.terminals.specs.Spellings.{longest, text_size, slots as slot-list, offsets as offset-list, text as text-list, endings as ending-list};
ghost use Rattle.terminals.specs.Lookup.{folded, hash, CodeOf};

// A small letter and its capital are as far apart as `a` and `A`; modulo this number they are the same.
const CASE: u8 = b'a' - b'A';

// Byte i of the n bytes from a start on, in upper case where case does not count; 0 past them.
fn letter(s: &[u8], start: usize, n: usize, fold: bool, i: usize) -> u8
    requires { n ≤ length s.now - start }
    ensures { result ≡ get_or (folded fold (take n (drop start s.now))) i 0 }
{
    if i >= n {
        return 0;
    }
    let b = s[start + i];
    if fold { b.to_ascii_uppercase() } else { b }
}

fn hash_of(s: &[u8], start: usize, n: usize, fold: bool) -> usize
    requires { (n ≤ length s.now - start) × (n ≤ longest) }
    ensures { result ≡ hash (folded fold (take n (drop start s.now))) }
{
    let first = columns::byte_index(letter(s, start, n, fold, 0));
    let last = columns::byte_index(letter(s, start, n, fold, n.saturating_sub(1)));
    let before = columns::byte_index(letter(s, start, n, fold, n.saturating_sub(2)));
    (first * table::BY_FIRST
        + n * table::BY_LENGTH
        + last * table::BY_LAST
        + before * table::BY_BEFORE)
        % table::SLOT_COUNT
}

// The terminal of a symbol of one byte up to `?`, or 0. These are dense, so that the compiler makes a table of them, and no jump.
fn low_byte(b: u8) -> u8
    requires { b < 64 }
    ensures { result ≡ symbol_terminal (b ∷ []) }
{
    match b {
        b'(' => codes::LPAREN,
        b')' => codes::RPAREN,
        b'*' => codes::TIMES,
        b'+' => codes::PLUS,
        b',' => codes::COMMA,
        b'-' => codes::MINUS,
        b'.' => codes::DOT,
        b'/' => codes::SLASH,
        b':' => codes::COLON,
        b';' => codes::SEMICOLON,
        b'<' => codes::LESS,
        b'=' => codes::EQUAL,
        b'>' => codes::GREATER,
        b'?' => codes::QUESTION,
        _ => codes::NONE,
    }
}

// The terminal of a symbol of one byte, or 0.
fn one_byte(b: u8) -> u8
    ensures { result ≡ symbol_terminal (b ∷ []) }
{
    if b <= b'?' {
        return low_byte(b);
    }
    match b {
        b'[' => codes::LBRACKET,
        b'\\' => codes::BACKSLASH,
        b']' => codes::RBRACKET,
        b'{' => codes::LBRACE,
        b'|' => codes::BAR,
        b'}' => codes::RBRACE,
        _ => codes::NONE,
    }
}

// The tables by which a word or a symbol is found.
#[derive(Drop)]
struct Tables {
    slots: [u8; table::SLOT_COUNT],
    offsets: [usize; table::OFFSET_COUNT],
    text: [u8; table::TEXT_SIZE],
    endings: [u32; table::ENDING_COUNT],
    ghost slots_are: { slots ≡ slot-list },
    ghost offsets_are: { offsets ≡ offset-list },
    ghost text_is: { text ≡ text-list },
    ghost endings_are: { endings ≡ ending-list },
}

impl Tables {
    // Whether the n bytes of the text from a place on are those of the source.
    fn matches(&self, s: &[u8], start: usize, n: usize, fold: bool, from: usize) -> bool
        requires { (n ≤ length s.now - start) × (from + n ≤ text_size) }
        ensures { result ≡ same_bytes (take n (drop from self.now.text)) (folded fold (take n (drop start s.now))) }
    {
        for j in 0..n {
            if self.text[from + j] != letter(s, start, n, fold, j) {
                return false;
            }
        }
        true
    }

    // The code of the spelling that the n bytes from a start on are, or 0.
    fn code_of(&self, s: &[u8], start: usize, n: usize, fold: bool) -> u8
        requires { n ≤ length s.now - start }
        ensures { CodeOf (folded fold (take n (drop start s.now))) result }
    {
        if n > table::LONGEST {
            return codes::NONE;
        }
        let code = self.slots[hash_of(s, start, n, fold)];
        if code == codes::NONE {
            return codes::NONE;
        }
        let k = columns::byte_index(code);
        let from = self.offsets[k];
        if self.offsets[k + 1] - from != n {
            return codes::NONE;
        }
        if !self.matches(s, start, n, fold, from) {
            return codes::NONE;
        }
        code
    }

    // Whether some reserved word begins and ends as the n bytes from a start on. Most words are identifiers, and most of these are
    // told by this at a lower cost than by the hash.
    fn may_be_reserved(&self, s: &[u8], start: usize, n: usize) -> bool
        requires { n ≤ length s.now - start }
        ensures { result ≡ false → the identifier ≡ word_terminal (take n (drop start s.now)) }
    {
        if n == 0 {
            return false;
        }
        if n > table::LONGEST {
            return false;
        }
        let lasts = self.endings[columns::byte_index(s[start] % CASE)];
        (lasts >> ((s[start + n - 1] % CASE) as u32)) % 2 == 1
    }

    // A word that is not reserved is an identifier.
    fn word(&self, s: &[u8], start: usize, n: usize) -> u8
        requires { n ≤ length s.now - start }
        ensures { result ≡ word_terminal (take n (drop start s.now)) }
    {
        if !self.may_be_reserved(s, start, n) {
            return codes::IDENTIFIER;
        }
        let code = self.code_of(s, start, n, true);
        if code < codes::FIRST_WORD {
            return codes::IDENTIFIER;
        }
        code
    }

    fn symbol(&self, s: &[u8], start: usize, n: usize) -> u8
        requires { n ≤ length s.now - start }
        ensures { result ≡ symbol_terminal (take n (drop start s.now)) }
    {
        if n == 1 {
            return one_byte(s[start]);
        }
        let code = self.code_of(s, start, n, false);
        if code < codes::FIRST_WORD {
            return code;
        }
        codes::NONE
    }

    fn terminal(&self, s: &[u8], kind: u8, start: usize, size: usize) -> u8
        ensures { result ≡ terminal_of kind (take size (drop start s.now)) }
    {
        let n = size.min(s.len().saturating_sub(start));
        if kind == codes::tokens::WORD {
            return self.word(s, start, n);
        }
        if kind == codes::tokens::SYMBOL {
            return self.symbol(s, start, n);
        }
        if kind < codes::tokens::INTEGER {
            return codes::NONE;
        }
        if kind > codes::tokens::BINARY {
            return codes::NONE;
        }
        // A literal's terminal has the number of its kind.
        kind
    }
}

// The terminal of each token into a column, as far as it goes.
pub fn terminals(src: &[u8], kinds: &[u8], starts: &[u32], lengths: &[u32], out: &mut [u8])
    ensures { out.new ≡ sets out.old 0 (terminal-list src.now kinds.now starts.now lengths.now) }
{
    // A constant array is built anew wherever it is named: once here, and lent from here on.
    let tables = Tables {
        slots: table::SLOTS,
        offsets: table::OFFSETS,
        text: table::TEXT,
        endings: table::ENDINGS,
    };
    for i in 0..kinds.len().min(starts.len().min(lengths.len())) {
        let start = columns::index(starts[i]);
        let size = columns::index(lengths[i]);
        columns::put(out, i, tables.terminal(src, kinds[i], start, size));
    }
}
