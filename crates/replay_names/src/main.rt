// Runs the stored calls of the standard input through `thawcopper_make_names` and `thawcopper_spelling` and compares each answer,
// and every byte lent to the maker, with the stored ones. The input's head comment describes its form. A call that differs has a
// line of its own; the last line counts both.

#![tactic(auto)]

ghost use Rattle.std.specs.Prelude.{◌≤◌, length, IfOk};

use std::io;
use vectors::cases::{Cases, Input};
use vectors::compared::{Compared, Numbers, Part, lend, same_bytes};
use vectors::input::Fault;
use vectors::runs::{Built, Kind, NameRoom, Names, Room};
use vectors::words::Words;

// What a call asks for.
#[derive(Clone, Copy)]
enum Asked {
    // The maker: how many bytes are lent for pairs and for text.
    Maker { pairs: u32, text: u32 },
    // The lookup: attr and number.
    Lookup { attr: u32, number: u32 },
}

impl Asked {
    fn read(words: &mut Words<'_>) -> Result<Asked, Fault>
        ensures { IfOk result (λ _. length words.new.rest.now ≤ length words.old.rest.now) }
    {
        match words.next()? {
            1 => Ok(Asked::Maker {
                pairs: words.next()?,
                text: words.next()?,
            }),
            2 => Ok(Asked::Lookup {
                attr: words.next()?,
                number: words.next()?,
            }),
            _ => Err(Fault::Case),
        }
    }
}

// What the lookup answers: refusal, start and bytes, and a 0. It lends nothing.
fn look_up(
    attr: u32,
    number: u32,
    b: Built<'_>,
    want: Numbers<4>,
    made: Names<'_>,
) -> Compared<4, 2> {
    let part = thawcopper::thawcopper_spelling(
        attr,
        number,
        b.names.pairs,
        b.names.text,
        made.pairs,
        made.text,
    );
    Compared {
        got: Numbers::from([part.refusal, part.start, part.bytes, 0]),
        want,
        lent: [None, None],
    }
}

// The bytes that can be lent.
#[derive(Drop)]
struct Lent {
    pairs: [u8; 524288],
    text: [u8; 524288],
}

impl Lent {
    // What the maker answers: refusal, place, pairs and bytes.
    fn make(
        &mut self,
        pairs: u32,
        text: u32,
        b: Built<'_>,
        want: Numbers<4>,
        made: Names<'_>,
    ) -> Result<Compared<4, 2>, Fault> {
        let counted = Kind::Pair.are_items(want.0[2], made.pairs)
            && Kind::Byte.are_items(want.0[3], made.text);
        if !counted {
            return Err(Fault::Case);
        }
        let pairs = lend(&mut self.pairs, pairs)?;
        let text = lend(&mut self.text, text)?;
        let named = thawcopper::thawcopper_make_names(
            b.first,
            b.names.pairs,
            b.names.text,
            pairs,
            text,
        );
        Ok(Compared {
            got: Numbers::from([named.refusal, named.place, named.pairs, named.bytes]),
            want,
            lent: [
                (!same_bytes(pairs, made.pairs)).then_some(Part::Pairs),
                (!same_bytes(text, made.text)).then_some(Part::Text),
            ],
        })
    }
}

// Room for a case one record above the limit, for the names that are stored as made, and for the bytes that can be lent.
#[derive(Drop)]
struct Calls {
    room: Room<786448>,
    made: NameRoom,
    lent: Lent,
}

impl Cases<4, 2> for Calls {
    // A call: what it asks for, the table, the answer and the made names.
    fn run(&mut self, words: &mut Words<'_>) -> Result<Compared<4, 2>, Fault> {
        let Calls { room, made, lent } = self;
        let asked = Asked::read(words)?;
        let built = room.build(words, Kind::Record)?;
        let want = words.answer()?;
        let made = made.build(words)?;
        match asked {
            Asked::Maker { pairs, text } => lent.make(pairs, text, built, want, made),
            Asked::Lookup { attr, number } => Ok(look_up(attr, number, built, want, made)),
        }
    }
}

fn main(rt: HostRuntime) -> io::Result<()> {
    let mut input: Input<524288, 65536> = Input::new();
    let mut calls = Calls {
        room: Room::new(),
        made: NameRoom::new(),
        lent: Lent {
            pairs: [0; 524288],
            text: [0; 524288],
        },
    };
    input.replay(&rt, &mut rt.stdin(), &mut calls, "calls")
}
