// What the second walk decides of a row before it is written, and the rows that it puts in beside the
// table's own: outside of the walkers, which only write.

#![tactic(auto)]

pub mod bodies;
pub mod identifiers;
pub mod plans;
pub mod top;

ghost use Rattle.emit_plan.specs.Plans.{InnerPreOf};

use acts::switches::Switches;
use bindings::view::Bindings;
use passes::slots::Slot;
use passes::states::State;
use passes::{Assigned, Becomes};
use plan::place::Place;
use spelling::Names;

// What stays the same on the whole walk: the switches, the rows and names of the table, and the bindings.
#[derive(Clone, Copy)]
pub struct Walk<'a, 'b> {
    pub switches: Switches,
    pub rows: &'a [u8],
    pub names: Names<'a>,
    pub bindings: Bindings<'b>,
}

// A list of siblings, from row `from` to row `end`, and how it is walked: the binding that module 7
// assigns in it and the state of its first row, and where the first one and the later ones are.
#[derive(Clone, Copy)]
pub struct Siblings {
    pub from: usize,
    pub end: usize,
    pub bind: usize,
    pub state: State,
    pub one: Place,
    pub more: Place,
}

// A list of siblings in its walk: the rows are whole, one beside the other, and their binding and frames have a place in its bindings.
#[derive(Clone, Copy)]
pub struct Inner<'w, 'a, 'b> {
    pub walk: &'w Walk<'a, 'b>,
    pub siblings: Siblings,
    pub ghost known: { InnerPreOf walk.now siblings },
}

// The words that a row is written with. No `From<Words>` makes it: a `From` asks nothing, and a word of the table is the same in 32 bits only
// where it is known to be small, which `OpLow` says of a row that is handed on.
#[derive(Clone, Copy)]
pub struct Head {
    pub kind: u32,
    pub attr: u32,
    pub name: u32,
}

// All that is decided of a row before it is written: its children, where it is and its slot, the binding
// that module 7 assigns around it, its words, what becomes of it, and what module 7 says of it: where the
// assignment goes, and the state of the rows after it. What the walkers need of it, `RowPreOf`, is no fact of its type: it is said of a Plan and a
// walk, which a Plan does not hold, and a type of both would be built in emit's `list` for `expression` alone, in the place of two `requires`.
#[derive(Clone, Copy)]
pub struct Plan {
    pub inner: Siblings,
    pub spot: Place,
    pub slot: Slot,
    pub bind: usize,
    pub head: Head,
    pub op: Becomes,
    pub assigned: Assigned,
    pub next: State,
}
