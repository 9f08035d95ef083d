// Slots.
ghost use Rattle.std.specs.Prelude.{◌≡◌};
ghost use Rattle.passes.specs.View.{slot_number, slotted};

// How a row stands under its parent, as far as the steps ask.
#[derive(Clone, Copy, PartialEq, Eq)]
pub enum Slot {
    // No step asks.
    Free,
    // Last child of a Method, or of a Property with bit 1.
    OfMethod,
    // A Function's Body.
    BodyOf,
    // The same, of a constructor where "a Super left in place has that constructor as nearest
    // Function".
    LateBody,
    // An expression body that becomes a Body.
    Wrapped,
    // A Target's child.
    OfTarget,
    // `super.m` or `super[k]` that is called, rewritten.
    Callee,
    // A part of a rewritten access that falls away: its Super, or the Target and the access of an
    // assignment.
    Dropped,
}

// The slot of a number: of one that is in no list nothing is asked.
impl From<usize> for Slot {
    ghost from_gives = { λ n slot. slot_number slot ≡ slotted n };

    #[inline(always)]
    fn from(n: usize) -> Slot {
        match n {
            1 => Slot::OfMethod,
            2 => Slot::BodyOf,
            3 => Slot::LateBody,
            4 => Slot::Wrapped,
            5 => Slot::OfTarget,
            6 => Slot::Callee,
            7 => Slot::Dropped,
            _ => Slot::Free,
        }
    }
}
