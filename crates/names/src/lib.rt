// The names of a table: pairs (start, length) over a text, and what both stand in, little-endian
// words and UTF-8. Refusal 4, and the sizes of names and text that refusal 1 tests.

#![tactic(auto)]

pub mod bytes;
pub mod utf8;
pub mod words;

ghost use Rattle.std.specs.Prelude.{◌≡◌, ℕ, ◌+◌, ◌*◌, ◌/◌, ◌<◌, ◌≤◌, length};
ghost use Rattle.names.specs.Names.{names_fit, bad_name, first_bad_name};

use crate::utf8::is_utf8;
use crate::words::pair_at;

// Whether names and text of these many bytes are whole pairs, and not too many.
pub fn names_fit(names: usize, text: usize) -> bool
    ensures { result ≡ names_fit names text }
{
    (names % 8 == 0) & (names <= 32768) & (text <= 65535)
}

// Whether name k, from 1, lies outside the text, is empty or longer than 255 bytes, or is not
// UTF-8.
fn bad_name(names: &[u8], text: &[u8], k: usize) -> bool
    requires { (0 < k) × ((8 * k ≤ length names.now) × (length names.now ≤ 32768)) }
    ensures { result ≡ bad_name names.now text.now k }
{
    let (start, n) = pair_at(names, k);
    let end = start + n;
    if text.len() < end {
        return true;
    }
    if (n == 0) | (255 < n) {
        return true;
    }
    !is_utf8(&text[start..end])
}

// Refusal 4: the first bad name, from 1.
pub fn first_bad_name(names: &[u8], text: &[u8]) -> Option<usize>
    requires { length names.now ≤ 32768 }
    ensures { result ≡ first_bad_name names.now text.now }
{
    let count = names.len() / 8;
    (1..count + 1).find(|k| bad_name(names, text, *k))
}
