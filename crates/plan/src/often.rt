// The acts of the kinds that need an act most often. Nothing below a row decides them, and but for a
// Function and an Arrow its children's places are made from its own place as a number. That is why they stand beside acts' `on_this`,
// `on_keyed` and `on_other`, which say the same over spots: a struct of seven parts made the processor wait for them at each call (docs/DECISIONS.md).
ghost use Rattle.std.specs.Prelude.{◌≡◌, Bool, ℕ, ◌<◌};
ghost use Rattle.forest.specs.Forest.{Rows};
ghost use Rattle.steps.specs.Mode.{Switches as Target};
ghost use Rattle.steps.specs.Naming.{Names};
ghost use Rattle.steps.specs.Acts.{act};
ghost use Rattle.acts.specs.View.{switches_of};
ghost use Rattle.plan.specs.Placing.{place_of};
ghost use Rattle.plan.specs.Taking.{Takes};

use crate::hand_on;
use crate::place::Place;
use acts::act::{Act, Words, kept, on_arrow, on_function};
use acts::switches::Switches;
use passes::Becomes;
use passes::slots::Slot;
use steps::has_bit;
use uses::Capture;

// A This: module 3.
pub fn this_act(q: Place, row: Words) -> Act<Place>
    requires { row.kind ≡ 9 }
    ensures { (N : Names) (w : Target) (l : Bool) (o : ℕ) (i : Rows) → Takes w (place_of q).ctx (act N w l (place_of q).ctx (place_of q).slot o row.kind row.attr row.name i) result }
{
    let inside = q.inside();
    if q.takes_this() {
        return Act {
            op: Becomes::Name {
                usage: Capture::This,
                frame: q.this_at(),
            },
            one: inside,
            more: inside,
        };
    }
    Act {
        op: kept(row),
        one: inside,
        more: inside,
    }
}

// A Method: its last child is method-like.
pub fn method_act(q: Place, row: Words) -> Act<Place>
    requires { row.kind ≡ 21 }
    ensures { (N : Names) (w : Target) (l : Bool) (o : ℕ) (i : Rows) → Takes w (place_of q).ctx (act N w l (place_of q).ctx (place_of q).slot o row.kind row.attr row.name i) result }
{
    let more = q.within(Slot::OfMethod);
    let op = kept(row);
    if has_bit(1, row.attr) {
        return Act {
            op,
            one: q.inside(),
            more,
        };
    }
    Act {
        op,
        one: more,
        more,
    }
}

// A Body.
pub fn body_act(q: Place, row: Words) -> Act<Place>
    requires { row.kind ≡ 19 }
    ensures { (N : Names) (w : Target) (l : Bool) (o : ℕ) (i : Rows) → Takes w (place_of q).ctx (act N w l (place_of q).ctx (place_of q).slot o row.kind row.attr row.name i) result }
{
    let inside = q.inside();
    Act {
        op: kept(row),
        one: inside,
        more: inside,
    }
}

// The Function at that row.
pub fn function_act(q: Place, row: Words, switches: Switches, at: usize, late: bool) -> Act<Place>
    requires { (row.kind ≡ 17) × (at < 16384) }
    ensures { (N : Names) (i : Rows) → Takes (switches_of switches) (place_of q).ctx (act N (switches_of switches) late (place_of q).ctx (place_of q).slot at row.kind row.attr row.name i) result }
{
    let spot = q.spot();
    hand_on(on_function(spot, row, switches, at, late))
}

// The Arrow at that row.
pub fn arrow_act(q: Place, row: Words, switches: Switches, at: usize, late: bool) -> Act<Place>
    requires { (row.kind ≡ 16) × (at < 16384) }
    ensures { (N : Names) (i : Rows) → Takes (switches_of switches) (place_of q).ctx (act N (switches_of switches) late (place_of q).ctx (place_of q).slot at row.kind row.attr row.name i) result }
{
    let spot = q.spot();
    hand_on(on_arrow(spot, row, switches))
}
