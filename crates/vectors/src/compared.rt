// What a case answers and leaves in the bytes that it lends, beside what is stored.
ghost use Rattle.std.specs.Prelude.{◌≡◌, ◌↔◌, length, min, take, drop, replicate, All, IfOk, IsNone, IsTrue};

use crate::input::Fault;
use std::fmt;

// An answer's numbers.
#[derive(Clone, Copy, PartialEq, Eq)]
pub struct Numbers<const N: usize>(pub [u64; N]);

// N words as numbers of an answer. A loop: the closure of `array::from_fn` would ask for N words in a contract of its own, and
// `[u32; N]::map` asks that its iterator fits in memory, which `From` below can't ask: no plainer.
pub(crate) fn widened<const N: usize>(words: &[u32]) -> [u64; N]
    requires { length words.now ≡ N }
    ensures { result ≡ words.now }
{
    let mut numbers = [0; N];
    for i in 0..N {
        numbers[i] = u64::from(words[i]);
    }
    numbers
}

impl<const N: usize> From<[u32; N]> for Numbers<N> {
    ghost from_gives = { λ words numbers. numbers.0 ≡ words };

    fn from(words: [u32; N]) -> Numbers<N> {
        Numbers(widened(&words))
    }
}

impl<const N: usize> fmt::Display for Numbers<N> {
    fn fmt<W: fmt::Write>(&self, f: &mut fmt::Formatter<W>) -> fmt::Result {
        for (i, n) in self.0.iter().enumerate() {
            if i != 0 {
                f.write_str(" ")?;
            }
            write!(f, "{n}")?;
        }
        Ok(())
    }
}

// A part of the bytes lent.
#[derive(Clone, Copy, PartialEq, Eq)]
pub enum Part {
    Bytes,
    Pairs,
    Text,
    Rows,
    Bindings,
}

impl fmt::Display for Part {
    fn fmt<W: fmt::Write>(&self, f: &mut fmt::Formatter<W>) -> fmt::Result {
        f.write_str(match self {
            Part::Bytes => "the bytes differ",
            Part::Pairs => "the pairs differ",
            Part::Text => "the text differs",
            Part::Rows => "the rows differ",
            Part::Bindings => "the bindings differ",
        })
    }
}

// An answer of N numbers beside the stored one, and each of the P parts lent if it differs from what is stored.
#[derive(Clone, Copy)]
pub struct Compared<const N: usize, const P: usize> {
    pub got: Numbers<N>,
    pub want: Numbers<N>,
    pub lent: [Option<Part>; P],
}

impl<const N: usize, const P: usize> Compared<N, P> {
    pub fn is_same(&self) -> bool
        ensures { IsTrue result ↔ (self.now.got ≡ self.now.want) × All (λ l. IsNone l) self.now.lent }
    {
        self.got == self.want && self.lent.iter().all(|l| l.is_none())
    }
}

// The two answers, and the parts that differ.
impl<const N: usize, const P: usize> fmt::Display for Compared<N, P> {
    fn fmt<W: fmt::Write>(&self, f: &mut fmt::Formatter<W>) -> fmt::Result {
        write!(f, "got {}, want {}", self.got, self.want)?;
        for part in &self.lent {
            if let Some(part) = part {
                write!(f, ", and {part}")?;
            }
        }
        Ok(())
    }
}

// What stands in the bytes lent before the call.
const BEFORE: u8 = 0xAA;

// Lends the first n of these bytes.
pub fn lend(bytes: &mut [u8], n: u32) -> Result<&mut [u8], Fault>
    ensures len { IfOk result (λ s. length s.now ≡ n) }
    ensures filled { IfOk result (λ s. s.now ≡ replicate n 0xAA) }
{
    let lent = bytes.get_mut(..n as usize).ok_or(Fault::Case)?;
    lent.fill(BEFORE);
    Ok(lent)
}

// Whether bytes that were lent now start with the stored ones, as far as they go, and are else as they were lent.
pub fn same_bytes(lent: &[u8], stored: &[u8]) -> bool
    ensures written { IsTrue result → take (min (length lent.now) (length stored.now)) lent.now ≡ take (min (length lent.now) (length stored.now)) stored.now }
    ensures kept { IsTrue result → All (λ b. b ≡ 0xAA) (drop (min (length lent.now) (length stored.now)) lent.now) }
{
    let n = lent.len().min(stored.len());
    let (written, kept) = lent.split_at(n);
    written == &stored[..n] && kept.iter().all(|b| *b == BEFORE)
}
