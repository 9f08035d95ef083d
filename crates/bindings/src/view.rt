// The bindings that are made, to be read: the lent array, and how many it holds. What stands where in the
// array is known here and in `maker` alone. A number that is 0 says that there is none, as in the array:
// an Option would only turn that 0 back and forth.
ghost use Rattle.std.specs.Prelude.{◌≡◌, ◌+◌, ◌*◌, ◌<◌, ◌≤◌, get_or, drop};
ghost use Rattle.uses.specs.Uses.{access_number};
ghost use Rattle.steps.specs.Outcome.{names_of};
ghost use Rattle.steps.specs.Bindings.{is};
ghost use Rattle.std.proofs.Props.{props};
ghost use Rattle.bindings.specs.Store.{Store, Bare-prop, bind_at, use_at, property_at, frame_at, next_at};

use crate::{NEXT, TABLES, access_word};
use spelling::Names;
use uses::Access;

#[derive(Clone, Copy)]
pub struct Bindings<'a> {
    pub made: &'a [u32],
    pub cap: usize,
    pub count: usize,
    pub ghost store: { Store made.now cap count } by { Prim.hlevel (Bare-prop, props) },
    pub ghost small: { cap ≤ 16384 },
}

// The words of a binding's record. The use stays a number: `walks` hands it on as it stands, and a `Use` would need its bounds in
// `Store`, and turn it there and back.
#[derive(Clone, Copy)]
pub struct Record {
    pub usage: u32,
    pub property: u32,
    pub frame: u32,
}

// A binding's number stays a bare `b < cap`: a type for it would be built from `b` in the line before each of its calls and taken
// apart in that call, since a chain gives a number that may be 0.
impl<'a> Bindings<'a> {
    // The words from that table on.
    pub(crate) fn table(self, table: usize) -> &'a [u32]
        requires { table < TABLES }
        ensures { result.now ≡ drop (table * self.entry.cap) self.entry.made.now }
    {
        &self.made[table * self.cap..]
    }

    // Word `at` of that table.
    pub(crate) fn word(self, table: usize, at: usize) -> u32
        requires { (table < TABLES) × (at < self.cap) }
        ensures { result ≡ get_or self.entry.made.now (table * self.entry.cap + at) 0 }
    {
        self.made[table * self.cap + at]
    }

    // The accessor behind accessor b in its frame, or the parameter behind parameter b.
    pub fn next(self, b: u32) -> u32
        requires { b < self.cap }
        ensures { result ≡ next_at self.entry.made.now self.entry.cap b }
    {
        self.word(NEXT, b as usize)
    }

    // The record of binding b.
    pub fn record(self, b: u32) -> Record
        requires { b < self.cap }
        ensures usage { result.usage ≡ use_at self.entry.made.now self.entry.cap b }
        ensures property { result.property ≡ property_at self.entry.made.now self.entry.cap b }
        ensures frame { result.frame ≡ frame_at self.entry.made.now self.entry.cap b }
    {
        let at = b as usize;
        Record {
            usage: self.made[at],
            property: self.made[self.cap + at],
            frame: self.made[2 * self.cap + at],
        }
    }

    // Whether binding b is that accessor, of that frame and property.
    pub(crate) fn is_it(
        self,
        names: &Names<'_>,
        b: usize,
        access: Access,
        f: usize,
        x: usize,
    ) -> bool
        requires { b < self.cap }
        ensures { result ≡ is (names_of names.now.pairs.now names.now.text.now) (access_number access) f x (bind_at self.entry.made.now self.entry.cap b) }
    {
        if self.made[2 * self.cap + b] as usize != f {
            return false;
        }
        if self.made[b] as usize != access_word(access) {
            return false;
        }
        names.same_name(self.made[self.cap + b] as usize, x)
    }
}
