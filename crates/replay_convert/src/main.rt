// Runs the stored conversions of the standard input through `thawcopper_convert_with` and compares each answer, and every byte
// lent, with the stored ones. The input's head comment describes its form. A conversion that differs has a line of its own;
// the last line counts both.

#![tactic(auto)]

ghost use Rattle.std.specs.Prelude.{◌≤◌, length, IfOk};

use std::io;
use thawcopper::Answer;
use vectors::cases::{Cases, Input};
use vectors::compared::{Compared, Numbers, Part, lend, same_bytes};
use vectors::input::Fault;
use vectors::runs::{Kind, Room, runs};
use vectors::words::Words;

fn numbers_of(a: Answer) -> Numbers<4> {
    Numbers::from([a.refusal, a.place, a.rows, a.bindings])
}

// Room for a result's rows and records.
#[derive(Drop)]
struct Lists {
    rows: [u8; 270336],
    records: [u8; 65536],
}

impl Lists {
    fn new() -> Lists {
        Lists {
            rows: [0; 270336],
            records: [0; 65536],
        }
    }

    // Lays out the result that is stored, which has as many rows and records as its answer says.
    fn lay_out(
        &mut self,
        words: &mut Words<'_>,
        answer: Numbers<4>,
    ) -> Result<(&[u8], &[u8]), Fault>
        ensures { IfOk result (λ _. length words.new.rest.now ≤ length words.old.rest.now) }
    {
        let Lists { rows, records } = self;
        let rows = runs(words, Kind::Row, rows)?;
        let records = runs(words, Kind::Record, records)?;
        if Kind::Row.are_items(answer.0[2], rows) && Kind::Record.are_items(answer.0[3], records) {
            Ok((rows, records))
        } else {
            Err(Fault::Case)
        }
    }
}

// Room for a table, for the result that is stored, and for what can be lent.
#[derive(Drop)]
struct Conversions {
    table: Room<270336>,
    stored: Lists,
    lent: Lists,
}

impl Cases<4, 2> for Conversions {
    // A conversion: the options, how many bytes are lent for rows and for records, the table, the answer and the result.
    fn run(&mut self, words: &mut Words<'_>) -> Result<Compared<4, 2>, Fault> {
        let Conversions {
            table,
            stored,
            lent,
        } = self;
        let Lists { rows, records } = lent;
        let options = words.next()?;
        let rows = lend(rows, words.next()?)?;
        let records = lend(records, words.next()?)?;
        let b = table.build(words, Kind::Row)?;
        let want = words.answer()?;
        let (stored_rows, stored_records) = stored.lay_out(words, want)?;
        let got = numbers_of(thawcopper::thawcopper_convert_with(
            options,
            b.first,
            b.names.pairs,
            b.names.text,
            rows,
            records,
        ));
        Ok(Compared {
            got,
            want,
            lent: [
                (!same_bytes(rows, stored_rows)).then_some(Part::Rows),
                (!same_bytes(records, stored_records)).then_some(Part::Bindings),
            ],
        })
    }
}

fn main(rt: HostRuntime) -> io::Result<()> {
    let mut input: Input<1048576, 327680> = Input::new();
    let mut conversions = Conversions {
        table: Room::new(),
        stored: Lists::new(),
        lent: Lists::new(),
    };
    input.replay(&rt, &mut rt.stdin(), &mut conversions, "conversions")
}
