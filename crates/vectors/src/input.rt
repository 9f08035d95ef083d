// The numbers of the input: decimal, apart by blanks and line ends; `#` starts a comment that ends with its line.
ghost use Rattle.std.specs.Prelude.{◌<◌, ◌≤◌, length, IfSome};

use std::fmt;

// What is wrong with stored data.
#[derive(Clone, Copy, Debug, PartialEq, Eq)]
pub enum Fault {
    // The input is too long, or a byte is out of place.
    Input,
    // A case cannot be read.
    Case,
}

impl fmt::Display for Fault {
    fn fmt<W: fmt::Write>(&self, f: &mut fmt::Formatter<W>) -> fmt::Result {
        f.write_str(match self {
            Fault::Input => "bad input",
            Fault::Case => "bad data",
        })
    }
}

// s from the end of its first line on.
fn skip_line(s: &[u8]) -> &[u8]
    ensures { length result.now ≤ length s.now }
{
    let n = s.iter().position(|b| *b == b'\n').unwrap_or(s.len());
    &s[n..]
}

// s from its first byte on that is no blank and in no comment. A loop by hand: a comment is passed over whole, so that no byte is
// asked what the bytes before it were: no plainer.
fn skip(s: &[u8]) -> &[u8]
    ensures { length result.now ≤ length s.now }
{
    let mut rest = s;
    while let Some((b, after)) = rest.split_first() {
        rest = match *b {
            b' ' | b'\n' => after,
            b'#' => skip_line(after),
            _ => break,
        };
    }
    rest
}

// The number that s starts with, and what stands behind it. No digit there, or more than a u32 holds: none.
fn number(s: &[u8]) -> Option<(u32, &[u8])>
    ensures { IfSome result (λ p. length p.1.now < length s.now) }
{
    let mut value: u32 = 0;
    for (i, b) in s.iter().enumerate() {
        if !b.is_ascii_digit() {
            return (i != 0).then_some((value, &s[i..]));
        }
        value = u32::try_from(10 * u64::from(value) + u64::from(*b - b'0')).ok()?;
    }
    (!s.is_empty()).then_some((value, &[]))
}

// Whether nothing is left to be read.
fn ended(rest: &[u8]) -> Result<(), Fault> {
    if rest.is_empty() {
        Ok(())
    } else {
        Err(Fault::Input)
    }
}

// Reads the numbers of s into words, as many as stand before a byte that is out of place or as words has room for,
// and says whether these are all of s.
pub fn numbers<'a>(s: &[u8], words: &'a mut [u32]) -> (&'a [u32], Result<(), Fault>)
    ensures room { length result.0.now ≤ length words.old }
    ensures apart { length result.0.now ≤ length s.now }
{
    let mut rest = skip(s);
    for i in 0..words.len() {
        let Some((value, after)) = number(rest) else {
            return (&words[..i], ended(rest));
        };
        words[i] = value;
        rest = skip(after);
    }
    (words, ended(rest))
}
