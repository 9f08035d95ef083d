// Little-endian words of bytes, read and written; the words of a row of a table.
ghost use Rattle.std.specs.Prelude.{◌≡◌, List, [], ◌∷◌, ℕ, ◌+◌, ◌*◌, ◌≤◌, ◌<◌, length, get_or};
ghost use Rattle.std.proofs.lemmas.List.Edits.{sets};
ghost use Rattle.names.specs.Words.{word_at, words, kind_at, attr_at, name_at, end_at};
ghost use Rattle.names.specs.Names.{start_of, length_of};
ghost use Rattle.names.specs.Bytes.{le32, bytes_of};

// The word whose four bytes start at `at`.
fn word(s: &[u8], at: usize) -> u32
    requires { at + 3 < length s.now }
    ensures { result ≡ word_at s.now at }
{
    u32::from_le_bytes([s[at], s[at + 1], s[at + 2], s[at + 3]])
}

// Word k of some bytes.
pub fn cell(s: &[u8], k: usize) -> usize
    requires { 4 * k + 3 < length s.now }
    ensures { (result ≡ get_or (words s.now) k 0) × (result < 4294967296) }
{
    word(s, 4 * k) as usize
}

// Pair k, from 1: where a name starts, and how long it is.
pub fn pair_at(pairs: &[u8], k: usize) -> (usize, usize)
    requires { (0 < k) × (8 * k ≤ length pairs.now) }
    ensures start { (result.0 ≡ start_of pairs.now k) × (result.0 < 4294967296) }
    ensures len { (result.1 ≡ length_of pairs.now k) × (result.1 < 4294967296) }
{
    let at = 2 * (k - 1);
    (cell(pairs, at), cell(pairs, at + 1))
}

// One function for each word of a row: each has a definition of its own, and one over the word's place would be no plainer.

// The kind of row i.
pub fn kind_at(rows: &[u8], i: usize) -> usize
    requires { 16 * i + 15 < length rows.now }
    ensures { (result ≡ kind_at (words rows.now) i) × (result < 4294967296) }
{
    cell(rows, 4 * i)
}

// The attr of row i.
pub fn attr_at(rows: &[u8], i: usize) -> usize
    requires { 16 * i + 15 < length rows.now }
    ensures { (result ≡ attr_at (words rows.now) i) × (result < 4294967296) }
{
    cell(rows, 4 * i + 1)
}

// The name of row i.
pub fn name_at(rows: &[u8], i: usize) -> usize
    requires { 16 * i + 15 < length rows.now }
    ensures { (result ≡ name_at (words rows.now) i) × (result < 4294967296) }
{
    cell(rows, 4 * i + 2)
}

// The end of row i.
pub fn end_at(rows: &[u8], i: usize) -> usize
    requires { 16 * i + 15 < length rows.now }
    ensures { (result ≡ end_at (words rows.now) i) × (result < 4294967296) }
{
    cell(rows, 4 * i + 3)
}

// Four bytes from `at` on, the low byte first.
pub fn put_word(out: &mut [u8], at: usize, x: u32)
    requires { at + 4 ≤ length out.old }
    ensures { out.new ≡ sets out.old at (le32 x) }
{
    out[at..at + 4].copy_from_slice(&x.to_le_bytes());
}

// Pair k, from 0: where a name starts, and how long it is.
pub fn put_pair(out: &mut [u8], k: usize, start: u32, len: u32)
    requires { 8 * k + 8 ≤ length out.old }
    ensures { out.new ≡ sets out.old (8 * k) (bytes_of (start ∷ len ∷ [])) }
{
    let at = 8 * k;
    put_word(out, at, start);
    put_word(out, at + 4, len);
}
