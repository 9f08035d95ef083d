// What `convert` answers, and the request's numbers of each answer.

#![tactic(auto)]

ghost use Rattle.std.specs.Prelude.{◌≡◌};
ghost use Rattle.answer.specs.declared.Refusal.TheVariants.{Unsound as NoTable, TurnedAway};
ghost use Rattle.answer.specs.Answer.{refusal_number, refusal_place, number_of, place_of, rows_of, bindings_of};

use refusals::Refused;
use rows::Unsound;

// A result that was written: so many rows, and so many bindings.
#[derive(Clone, Copy)]
pub struct Converted {
    pub rows: usize,
    pub bindings: usize,
}

// Why nothing was written.
#[derive(Clone, Copy)]
pub enum Refusal {
    // Refusals 1, 4, 21 to 25, 3 and 5.
    Unsound(Unsound),
    // Refusals 6, 7 and 8.
    TurnedAway(Refused),
    // Refusal 9.
    NoRoom,
}

impl From<Unsound> for Refusal {
    ghost from_gives = { λ unsound refusal. refusal ≡ NoTable unsound };

    fn from(found: Unsound) -> Refusal {
        Refusal::Unsound(found)
    }
}

impl From<Refused> for Refusal {
    ghost from_gives = { λ refused refusal. refusal ≡ TurnedAway refused };

    fn from(turned: Refused) -> Refusal {
        Refusal::TurnedAway(turned)
    }
}

impl Refusal {
    // The request's number of the refusal.
    pub fn number(self) -> u32
        ensures { result ≡ refusal_number self }
    {
        match self {
            Refusal::Unsound(unsound) => unsound.number(),
            Refusal::TurnedAway(refused) => refused.number(),
            Refusal::NoRoom => 9,
        }
    }

    // Its place: 0, the number of a name from 1, or a row.
    pub fn place(self) -> usize
        ensures { result ≡ refusal_place self }
    {
        match self {
            Refusal::Unsound(unsound) => unsound.place(),
            Refusal::TurnedAway(refused) => refused.place(),
            Refusal::NoRoom => 0,
        }
    }
}

// The request's numbers of an answer.
#[derive(Clone, Copy)]
pub struct Numbers {
    pub number: u32,
    pub place: usize,
    pub rows: usize,
    pub bindings: usize,
}

impl From<Result<Converted, Refusal>> for Numbers {
    ghost from_gives = { λ answer numbers. (numbers.number ≡ number_of answer) × (numbers.place ≡ place_of answer) × (numbers.rows ≡ rows_of answer) × (numbers.bindings ≡ bindings_of answer) };

    fn from(answer: Result<Converted, Refusal>) -> Numbers {
        match answer {
            Ok(converted) => Numbers {
                number: 0,
                place: 0,
                rows: converted.rows,
                bindings: converted.bindings,
            },
            Err(refusal) => Numbers {
                number: refusal.number(),
                place: refusal.place(),
                rows: 0,
                bindings: 0,
            },
        }
    }
}
