// Runs the stored calls of the standard input through `thawcopper_base_text` and compares each answer, and every byte lent, with
// the stored ones. The input's head comment describes its form. A call that differs has a line of its own; the last line counts both.

#![tactic(auto)]

use std::io;
use thawcopper::Spelled;
use vectors::cases::{Cases, Input};
use vectors::compared::{Compared, Numbers, Part, lend, same_bytes};
use vectors::input::Fault;
use vectors::runs::{Kind, Room};
use vectors::words::Words;

fn numbers_of(s: Spelled) -> Numbers<3> {
    Numbers::from([s.refusal, s.place, s.bytes])
}

// The stored bytes, each the low one of a word, as many as `out` has room for.
fn low_bytes<'a>(words: &[u32], out: &'a mut [u8]) -> &'a [u8] {
    let n = words.len().min(out.len());
    for (to, w) in out.iter_mut().zip(words) {
        *to = (w % 256) as u8;
    }
    &out[..n]
}

// Room for a case one record above the limit, and for the bytes that can be lent and those that are stored of them.
#[derive(Drop)]
struct Calls {
    room: Room<786448>,
    out: [u8; 512],
    stored: [u8; 512],
}

impl Cases<3, 1> for Calls {
    // A call: the binding's number and how many bytes are lent, the table, the answer and its bytes.
    fn run(&mut self, words: &mut Words<'_>) -> Result<Compared<3, 1>, Fault> {
        let Calls { room, out, stored } = self;
        let number = words.next()?;
        let out = lend(out, words.next()?)?;
        let b = room.build(words, Kind::Record)?;
        let want: Numbers<3> = words.answer()?;
        let stored = low_bytes(words.take(want.0[2] as usize)?, stored);
        let got = numbers_of(thawcopper::thawcopper_base_text(
            number,
            b.first,
            b.names.pairs,
            b.names.text,
            out,
        ));
        Ok(Compared {
            got,
            want,
            lent: [(!same_bytes(out, stored)).then_some(Part::Bytes)],
        })
    }
}

fn main(rt: HostRuntime) -> io::Result<()> {
    let mut input: Input<524288, 65536> = Input::new();
    let mut calls = Calls {
        room: Room::new(),
        out: [0; 512],
        stored: [0; 512],
    };
    input.replay(&rt, &mut rt.stdin(), &mut calls, "calls")
}
