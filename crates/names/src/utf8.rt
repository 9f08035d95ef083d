// Well-formed UTF-8, by the table that `specs/Utf8.antt` names.
ghost use Rattle.std.specs.Prelude.{◌≡◌, ℕ, ◌<◌, ◌≤◌, length, get_or};
ghost use Rattle.names.specs.Utf8.{tail, two, three, four, seq_at, utf8};

// A continuation byte.
fn tail(b: u8) -> bool
    ensures { result ≡ tail b }
{
    (0x80 <= b) & (b <= 0xBF)
}

// The table's row for two bytes.
fn two(a: u8, b: u8) -> bool
    ensures { result ≡ two a b }
{
    (0xC2 <= a) & (a <= 0xDF) & tail(b)
}

// Its four rows for three bytes: no overlong form, no surrogate.
fn three(a: u8, b: u8, c: u8) -> bool
    ensures { result ≡ three a b c }
{
    ((0xE0 <= a) & (a <= 0xE0) & ((0xA0 <= b) & (b <= 0xBF)) & tail(c))
        | ((0xE1 <= a) & (a <= 0xEC) & tail(b) & tail(c))
        | ((0xED <= a) & (a <= 0xED) & ((0x80 <= b) & (b <= 0x9F)) & tail(c))
        | ((0xEE <= a) & (a <= 0xEF) & tail(b) & tail(c))
}

// Its three rows for four bytes: no overlong form, nothing above U+10FFFF.
fn four(a: u8, b: u8, c: u8, d: u8) -> bool
    ensures { result ≡ four a b c d }
{
    ((0xF0 <= a) & (a <= 0xF0) & ((0x90 <= b) & (b <= 0xBF)) & tail(c) & tail(d))
        | ((0xF1 <= a) & (a <= 0xF3) & tail(b) & tail(c) & tail(d))
        | ((0xF4 <= a) & (a <= 0xF4) & ((0x80 <= b) & (b <= 0x8F)) & tail(c) & tail(d))
}

// The byte at i, 0 past the end.
pub fn byte(s: &[u8], i: usize) -> u8
    ensures { result ≡ get_or s.now i 0 }
{
    s.get(i).copied().unwrap_or(0)
}

// The length of the well-formed sequence at i, 0 where none starts there. A number, as the definition has it, and no Option: base
// text, which asks for the width of a name's first character (`first_width`), would turn None into this 0 again.
// Inlined, since a call for each byte of a name would take longer than what it answers.
#[inline(always)]
pub fn seq_at(s: &[u8], i: usize) -> usize
    requires { i < length s.now }
    ensures { (result ≡ seq_at s.now i) × (result ≤ 4) }
{
    let a = s[i];
    if a <= 0x7F {
        return 1;
    }
    // The first byte says which rows of the table are asked.
    let b = byte(s, i + 1);
    if a <= 0xDF {
        return if two(a, b) { 2 } else { 0 };
    }
    let c = byte(s, i + 2);
    if a <= 0xEF {
        return if three(a, b, c) { 3 } else { 0 };
    }
    if four(a, b, c, byte(s, i + 3)) { 4 } else { 0 }
}

// A word, in bytes.
const WORD: usize = 8;

// The highest bit of each byte of a word: no ASCII byte has it.
const HIGH_BITS: u64 = 0x8080_8080_8080_8080;

// How many of these bytes, word by word from the front, are ASCII.
fn ascii_words(s: &[u8]) -> usize
    ensures { (result ≤ length s.now) × ((j : ℕ) → j < result → get_or s.now j 0 < 128) }
{
    let mut i: usize = 0;
    while let Some(word) = s[i..].first_chunk::<WORD>() {
        if u64::from_le_bytes(*word) & HIGH_BITS != 0 {
            return i;
        }
        i += WORD;
    }
    i
}

// Whether these bytes are well-formed sequences, one after the other. The library's own reader takes more than twice as long where
// a few ASCII letters stand between others.
// A loop by hand: a sequence is as long as its bytes say, so that there is no list of them to walk over: no plainer.
fn by_sequences(s: &[u8]) -> bool
    ensures { result ≡ utf8 s.now }
{
    let mut i: usize = 0;
    while i < s.len() {
        let w = seq_at(s, i);
        if w == 0 {
            return false;
        }
        i += w;
    }
    true
}

// Whether these bytes are well-formed. Words of ASCII in front are passed over: a name of many ASCII letters takes a fifth of the time
// that its sequences take. What stands behind them is a slice of its own: a loop that went on in `s` was compiled with a jump more for
// each byte of ASCII.
pub fn is_utf8(s: &[u8]) -> bool
    ensures { result ≡ utf8 s.now }
{
    by_sequences(&s[ascii_words(s)..])
}
