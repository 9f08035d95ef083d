// Runs the stored tables of the standard input through `rows::check` and compares each answer with the stored one.
// The input's head comment describes its form. A table that differs has a line of its own; the last line counts both.

#![tactic(auto)]

use rows::{Limits, Unsound};
use std::io;
use vectors::cases::{Cases, Input};
use vectors::compared::{Compared, Numbers};
use vectors::input::Fault;
use vectors::runs::{Kind, Room};
use vectors::words::Words;

// The refusal's number and its place; a sound table has 0 and 0.
fn answer_of(checked: Result<(), Unsound>) -> Numbers<2> {
    match checked {
        Ok(()) => Numbers([0, 0]),
        Err(unsound) => Numbers([unsound.number() as u64, unsound.place() as u64]),
    }
}

// Room for four rows above the largest limit.
#[derive(Drop)]
struct Tables {
    room: Room<262208>,
}

impl Cases<2, 0> for Tables {
    // A table: its limits, its bytes and the stored answer.
    fn run(&mut self, words: &mut Words<'_>) -> Result<Compared<2, 0>, Fault> {
        let limits = Limits {
            rows: words.next()? as usize,
            depth: words.next()? as usize,
        };
        let b = self.room.build(words, Kind::Row)?;
        let want = words.answer()?;
        let got = answer_of(rows::check(b.first, b.names.pairs, b.names.text, limits));
        Ok(Compared {
            got,
            want,
            lent: [],
        })
    }
}

fn main(rt: HostRuntime) -> io::Result<()> {
    let mut input: Input<524288, 65536> = Input::new();
    let mut tables = Tables { room: Room::new() };
    input.replay(&rt, &mut rt.stdin(), &mut tables, "tables")
}
