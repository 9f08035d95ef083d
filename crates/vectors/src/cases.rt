// The cases of the input, run one behind the other: how many there are, and how many of them differ.
ghost use Rattle.std.specs.Prelude.{◌≡◌, ◌+◌, ◌^◌, ◌<◌, ◌≤◌, length, replicate, IfOk};
ghost use Rattle.std.specs.Io.KnownBytes.{Consumes};

use crate::compared::Compared;
use crate::input::{Fault, numbers};
use crate::words::Words;
use reading::read_full;
use std::io::Read;
use std::{fmt, io};

// A program's cases: answers with N numbers, calls that lend P parts.
pub trait Cases<const N: usize, const P: usize> {
    // Reads the next case, behind its number, and runs it.
    fn run(&mut self, words: &mut Words<'_>) -> Result<Compared<N, P>, Fault>
        ensures { IfOk result (λ _. length words.new.rest.now ≤ length words.old.rest.now) };
}

// How many cases there are of what, and how many of them differ.
#[derive(Clone, Copy)]
pub struct Tally<'a> {
    pub what: &'a str,
    pub cases: usize,
    pub differ: usize,
}

// The last line that is printed.
impl fmt::Display for Tally<'_> {
    ghost use Rattle.std.specs.Prelude.{Some};
    ghost use Rattle.vectors.specs.Told.{tally_text};

    ghost output = { λ t. Some (tally_text t) };

    fn fmt<W: fmt::Write>(&self, f: &mut fmt::Formatter<W>) -> fmt::Result {
        write!(f, "{} {}, {} differ", self.cases, self.what, self.differ)
    }
}

// Case n, which stands at the start of the words and begins with its number.
fn run_case<const N: usize, const P: usize, C: Cases<N, P>>(
    cases: &mut C,
    n: usize,
    words: &mut Words<'_>,
) -> Result<Compared<N, P>, Fault>
    ensures { IfOk result (λ _. length words.new.rest.now < length words.old.rest.now) }
{
    if words.next()? as usize != n {
        return Err(Fault::Case);
    }
    cases.run(words)
}

// Runs the cases, and prints a line for each that differs. A case that cannot be read counts as a difference and ends the run,
// as no later case can be found.
fn run_all<'a, const N: usize, const P: usize, C: Cases<N, P>>(
    rt: &impl Print,
    cases: &mut C,
    words: &[u32],
    what: &'a str,
) -> io::Result<Tally<'a>>
    requires { N + P ≤ 2 ^ 16 }
    ensures counts { IfOk result (λ t. (t.differ ≤ t.cases) × (t.cases ≤ length words.now)) }
    ensures named { IfOk result (λ t. t.what.now ≡ what.entry.now) }
{
    let mut words = Words { rest: words };
    let mut tally = Tally {
        what,
        cases: 0,
        differ: 0,
    };
    // A loop by hand: how many words a case has is known once it was run, so that there is no list to walk over: no plainer.
    while !words.rest.is_empty() {
        tally.cases += 1;
        let n = tally.cases;
        match run_case(cases, n, &mut words) {
            Ok(c) => {
                if !c.is_same() {
                    println!(rt; "case {n}: {c}")?;
                    tally.differ += 1;
                }
            }
            Err(e) => {
                println!(rt; "case {n}: {e}")?;
                tally.differ += 1;
                break;
            }
        }
    }
    Ok(tally)
}

// The bytes of an input, read to the start of the room, as far as it has room.
fn read_input<'a, R: Read>(input: &mut R, room: &'a mut [u8]) -> io::Result<&'a [u8]>
    ensures { IfOk result (λ s. Consumes (R.remaining input.old) (R.remaining input.new) s.now) }
{
    let n = read_full(input, room)?;
    Ok(&room[..n])
}

// Room for an input of less than B bytes, with at most W numbers.
#[derive(Drop)]
pub struct Input<const B: usize, const W: usize> {
    bytes: [u8; B],
    words: [u32; W],
}

impl<const B: usize, const W: usize> Input<B, W> {
    pub fn new() -> Input<B, W>
        ensures { (result.bytes ≡ replicate B 0) × (result.words ≡ replicate W 0) }
    {
        Input {
            bytes: [0; B],
            words: [0; W],
        }
    }

    // Reads an input and replays its cases. What has no room, or has a byte out of place, counts as a difference. The last line
    // says how many of `what` there are, and how many differ.
    pub fn replay<const N: usize, const P: usize, C: Cases<N, P>, R: Read>(
        &mut self,
        rt: &impl Print,
        input: &mut R,
        cases: &mut C,
        what: &str,
    ) -> io::Result<()>
        requires { N + P ≤ 2 ^ 16 }
    {
        let Input { bytes, words } = self;
        let read = read_input(input, bytes)?;
        let (words, whole) = numbers(read, words);
        let mut tally = run_all(rt, cases, words, what)?;
        if read.len() == B || whole.is_err() {
            println!(rt; "{}", Fault::Input)?;
            tally.differ += 1;
        }
        println!(rt; "{tally}")
    }
}
