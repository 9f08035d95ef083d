// A spot in one number, so that the walks hand it on in a register.
ghost use Rattle.std.specs.Prelude.{◌≡◌, cond, ◌<◌, ◌%◌};
ghost use Rattle.steps.specs.Context.{spot, start};
ghost use Rattle.steps.specs.Slots.{free};
ghost use Rattle.passes.specs.View.{slot_number};
ghost use Rattle.acts.specs.View.{context_of};
ghost use Rattle.acts.specs.Deciding.{spot_of};
ghost use Rattle.plan.specs.Frames.{FramesBelow};
ghost use Rattle.plan.specs.Placing.{place_of};

use acts::act::Spot;
use acts::context::{Context, at_program};
use passes::slots::Slot;

// Bits 0 to 2: slot. Bit 3: takes_this. Bit 4: takes_super. Bit 5: takes_arguments. Bits 6 to 19:
// this_at. Bits 20 to 33: super_at. Bits 34 to 47: arguments_at.
#[derive(Clone, Copy)]
pub struct Place {
    pub code: usize,
}

impl Place {
    // The spot.
    pub fn spot(self) -> Spot
        ensures result_value { spot_of result ≡ place_of self }
        ensures frames_below { FramesBelow 16384 (context_of result.context) }
    {
        let code = self.code;
        let context = Context {
            this_at: code / 64 % 16384,
            super_at: code / 1048576 % 16384,
            arguments_at: code / 17179869184 % 16384,
            takes_this: code / 8 % 2 == 1,
            takes_super: code / 16 % 2 == 1,
            takes_arguments: code / 32 % 2 == 1,
        };
        Spot {
            context,
            slot: Slot::from(code % 8),
        }
    }

    // Its slot.
    #[tactic(auto, unfolding(crate::specs::Placing::place_of))]
    pub fn slot(self) -> Slot
        ensures { slot_number result ≡ (place_of self).slot }
    {
        Slot::from(self.code % 8)
    }

    // Its frame of `this`.
    pub fn this_at(self) -> usize
        ensures value { result ≡ (place_of self).ctx.this_at }
        ensures upper_bound { result < 16384 }
    {
        self.code / 64 % 16384
    }

    // Whether it captures `this`.
    #[tactic(auto, unfolding(crate::specs::Placing::place_of))]
    pub fn takes_this(self) -> bool
        ensures { result ≡ (place_of self).ctx.takes_this }
    {
        self.code / 8 % 2 == 1
    }

    // The same context, in that slot.
    pub fn within(self, slot: Slot) -> Place
        ensures { place_of result ≡ spot (place_of self).ctx (slot_number slot) }
    {
        Place {
            code: slot as usize + 8 * (self.code / 8),
        }
    }

    // The same context, with no slot: where the children of a row that stays are.
    pub fn inside(self) -> Place
        ensures { place_of result ≡ spot (place_of self).ctx free }
    {
        Place {
            code: 8 * (self.code / 8),
        }
    }
}

// A flag as a number: 1 or 0.
fn bit(flag: bool) -> usize
    ensures value { result ≡ cond flag 1 0 }
    ensures upper_bound { result < 2 }
{
    flag as usize
}

// A spot as a place.
pub fn placed(spot: Spot) -> Place
    requires { FramesBelow 16384 (context_of spot.context) }
    ensures { place_of result ≡ spot_of spot }
{
    let context = spot.context;
    let takes_this = bit(context.takes_this);
    let takes_super = bit(context.takes_super);
    let takes_arguments = bit(context.takes_arguments);
    let frames = context.this_at + 16384 * (context.super_at + 16384 * context.arguments_at);
    Place {
        code: spot.slot as usize
            + 8 * (takes_this + 2 * (takes_super + 2 * (takes_arguments + 2 * frames))),
    }
}

// Where Program is.
pub fn program() -> Place
    ensures { place_of result ≡ spot start free }
{
    let spot = Spot {
        context: at_program(),
        slot: Slot::Free,
    };
    placed(spot)
}
