// What becomes of a row, and how its children are reached: modules 3 to 6 brought together, a function
// for each kind that a rule is about.
ghost use Rattle.std.specs.Prelude.{◌≡◌, Bool, cond, ℕ, ◌||◌, eqb};
ghost use Rattle.grammar.specs.Kinds.{Method};
ghost use Rattle.forest.specs.Forest.{Rows};
ghost use Rattle.steps.specs.Mode.{Switches as Target, async_only, bit};
ghost use Rattle.steps.specs.Naming.{Names, named_arguments};
ghost use Rattle.steps.specs.Super.{first_super, first_access, first_inside};
ghost use Rattle.steps.specs.Acts.{act_of, act, Op, Kind as RuleKind};
ghost use Rattle.below.specs.Below.{property_of, Asked};
ghost use Rattle.passes.specs.View.{op_of, slot_number};
ghost use Rattle.passes.specs.declared.slots.Slot.TheVariants.{Free};
ghost use Rattle.acts.specs.View.{switches_of, context_of};
ghost use Rattle.acts.specs.Deciding.{inside_of, Does};

use crate::context::Context;
use crate::switches::Switches;
use below::Below;
use grammar::kind::Kind;
use passes::Becomes;
use passes::slots::Slot;
use steps::{has_bit, holds_method};
use uses::{Access, Capture};

// Where a row is.
#[derive(Clone, Copy)]
pub struct Spot {
    pub context: Context,
    pub slot: Slot,
}

// What becomes of a row, and where its first child and its later ones are: in the spots of this crate, or in the places of `plan`.
#[derive(Clone, Copy)]
pub struct Act<Q> {
    pub op: Becomes,
    pub one: Q,
    pub more: Q,
}

// The words of a row, as the table has them: a row that stays is handed on with its kind, whatever number that is, and what is
// promised is so for each. A `Kind` would lose the numbers of no list.
#[derive(Clone, Copy)]
pub struct Words {
    pub kind: usize,
    pub attr: usize,
    pub name: usize,
}

// Children in these contexts and slots: the first, and the later ones.
fn inside(op: Becomes, one: Context, slot: Slot, more: Context, last: Slot) -> Act<Spot>
    ensures { result ≡ inside_of op one slot more last }
{
    Act {
        op,
        one: Spot { context: one, slot },
        more: Spot {
            context: more,
            slot: last,
        },
    }
}

// Children in the same context, the first in that slot.
fn along(op: Becomes, context: Context, slot: Slot) -> Act<Spot>
    ensures { result ≡ inside_of op context slot context Free }
{
    inside(op, context, slot, context, Slot::Free)
}

// The row stays.
pub fn kept(row: Words) -> Becomes
    ensures { op_of result ≡ Op.row row.kind row.attr row.name }
{
    Becomes::Row {
        kind: row.kind,
        attr: row.attr,
        name: row.name,
    }
}

// Module 3: a captured `this`.
fn on_this(q: Spot, row: Words) -> Act<Spot>
    ensures { (N : Names) (w : Target) (l : Bool) (o : ℕ) (i : Rows) → Does w (context_of q.context) (act_of N w l (context_of q.context) (slot_number q.slot) o RuleKind.this row.kind row.attr row.name i) result }
{
    let context = q.context;
    if context.takes_this {
        let op = Becomes::Name {
            usage: Capture::This,
            frame: context.this_at,
        };
        return along(op, context, Slot::Free);
    }
    along(kept(row), context, Slot::Free)
}

// Module 4: the Super of a rewritten access falls away.
fn on_super(q: Spot, row: Words) -> Act<Spot>
    ensures { (N : Names) (w : Target) (l : Bool) (o : ℕ) (i : Rows) → Does w (context_of q.context) (act_of N w l (context_of q.context) (slot_number q.slot) o RuleKind.super row.kind row.attr row.name i) result }
{
    let context = q.context;
    if q.slot == Slot::Dropped {
        return along(Becomes::Drop, context, Slot::Free);
    }
    along(kept(row), context, Slot::Free)
}

// Module 5: a captured `arguments`. `only`: the mode is AsyncOnly; `arguments`: that is its name.
fn on_ident(q: Spot, row: Words, only: bool, arguments: bool) -> Act<Spot>
    ensures { (N : Names) (w : Target) (l : Bool) (o : ℕ) (i : Rows) → only ≡ async_only w → arguments ≡ named_arguments N row.name
        → Does w (context_of q.context) (act_of N w l (context_of q.context) (slot_number q.slot) o RuleKind.ident row.kind row.attr row.name i) result }
{
    let context = q.context;
    if only & arguments & context.takes_arguments {
        let op = Becomes::Name {
            usage: Capture::Arguments,
            frame: context.arguments_at,
        };
        return along(op, context, Slot::Free);
    }
    along(kept(row), context, Slot::Free)
}

// Module 4: `super.p` or `super[k]`. `sup`: its first child is Super.
fn on_access(q: Spot, row: Words, sup: bool) -> Act<Spot>
    ensures { (N : Names) (w : Target) (l : Bool) (o : ℕ) (i : Rows) → sup ≡ first_super i → Does w (context_of q.context) (act_of N w l (context_of q.context) (slot_number q.slot) o RuleKind.access row.kind row.attr row.name i) result }
{
    let context = q.context;
    let slot = q.slot;
    if !(context.takes_super & sup & !(slot == Slot::OfTarget)) {
        return along(kept(row), context, Slot::Free);
    }
    if slot == Slot::Dropped {
        return along(Becomes::Drop, context, Slot::Dropped);
    }
    let op = Becomes::Call {
        usage: Access::Get,
        frame: context.super_at,
        property: row.name,
        called: slot == Slot::Callee,
    };
    along(op, context, Slot::Dropped)
}

// Module 4: the callee of a call. `access`: it is `super.p` or `super[k]`.
fn on_call(q: Spot, row: Words, access: bool) -> Act<Spot>
    ensures { (N : Names) (w : Target) (l : Bool) (o : ℕ) (i : Rows) → access ≡ first_access i → Does w (context_of q.context) (act_of N w l (context_of q.context) (slot_number q.slot) o RuleKind.call row.kind row.attr row.name i) result }
{
    let context = q.context;
    if context.takes_super & access {
        return along(kept(row), context, Slot::Callee);
    }
    along(kept(row), context, Slot::Free)
}

// Module 4: an assignment. `property`: that of its Target's child, where that is `super.p` or `super[k]`.
fn on_assign(q: Spot, row: Words, property: Option<usize>) -> Act<Spot>
    ensures { (N : Names) (w : Target) (l : Bool) (o : ℕ) (i : Rows) → property ≡ property_of (first_inside i)
        → Does w (context_of q.context) (act_of N w l (context_of q.context) (slot_number q.slot) o RuleKind.assign row.kind row.attr row.name i) result }
{
    let context = q.context;
    match property {
        Some(property) if context.takes_super => {
            let op = Becomes::Call {
                usage: Access::Set,
                frame: context.super_at,
                property,
                called: false,
            };
            along(op, context, Slot::Dropped)
        }
        _ => along(kept(row), context, Slot::Free),
    }
}

// Module 4: the Target of an assignment that is rewritten falls away. Like `on_super` but for its kind and where its child stands:
// one function for both would have these as parameters and a contract by cases, and be no plainer.
fn on_target(q: Spot, row: Words) -> Act<Spot>
    ensures { (N : Names) (w : Target) (l : Bool) (o : ℕ) (i : Rows) → Does w (context_of q.context) (act_of N w l (context_of q.context) (slot_number q.slot) o RuleKind.target row.kind row.attr row.name i) result }
{
    let context = q.context;
    if q.slot == Slot::Dropped {
        return along(Becomes::Drop, context, Slot::Dropped);
    }
    along(kept(row), context, Slot::OfTarget)
}

// Any other row.
fn on_other(q: Spot, row: Words) -> Act<Spot>
    ensures { (N : Names) (w : Target) (l : Bool) (o : ℕ) (i : Rows) → Does w (context_of q.context) (act_of N w l (context_of q.context) (slot_number q.slot) o RuleKind.other row.kind row.attr row.name i) result }
{
    along(kept(row), q.context, Slot::Free)
}

// Module 6: an Arrow. Enabled makes a Function of one that is not async.
pub fn on_arrow(q: Spot, row: Words, switches: Switches) -> Act<Spot>
    ensures { (N : Names) (l : Bool) (o : ℕ) (i : Rows) → Does (switches_of switches) (context_of q.context) (act_of N (switches_of switches) l (context_of q.context) (slot_number q.slot) o RuleKind.arrow row.kind row.attr row.name i) result }
{
    let attr = row.attr;
    let context = q.context.in_arrow(switches, attr);
    let asynchronous = has_bit(1, attr);
    let expression = has_bit(2, attr);
    if !switches.is_enabled() | asynchronous {
        return inside(kept(row), context, Slot::Free, context, Slot::Free);
    }
    let op = Becomes::Row {
        kind: Kind::Function as usize,
        attr: 0,
        name: 0,
    };
    if expression {
        return inside(op, context, Slot::Free, context, Slot::Wrapped);
    }
    inside(op, context, Slot::Free, context, Slot::Free)
}

// A Function: its Params and its Body. `late`: of a constructor, a Super is left in place.
pub fn on_function(q: Spot, row: Words, switches: Switches, at: usize, late: bool) -> Act<Spot>
    ensures { (N : Names) (i : Rows) → Does (switches_of switches) (context_of q.context) (act_of N (switches_of switches) late (context_of q.context) (slot_number q.slot) at RuleKind.function row.kind row.attr row.name i) result }
{
    let attr = row.attr;
    let context = q.context;
    let method = q.slot == Slot::OfMethod;
    let params = context.in_params(switches, at, attr, method);
    let body = context.in_body(switches, at, attr, method);
    if late {
        return inside(kept(row), params, Slot::Free, body, Slot::LateBody);
    }
    inside(kept(row), params, Slot::Free, body, Slot::BodyOf)
}

// A Method or Property. `method`: its last child is method-like.
fn on_keyed(q: Spot, row: Words, method: bool) -> Act<Spot>
    ensures { (N : Names) (w : Target) (l : Bool) (o : ℕ) (i : Rows) → method ≡ (eqb row.kind Method || bit 2 row.attr) → Does w (context_of q.context) (act_of N w l (context_of q.context) (slot_number q.slot) o RuleKind.keyed row.kind row.attr row.name i) result }
{
    let context = q.context;
    let keyed = has_bit(1, row.attr);
    if !method {
        return inside(kept(row), context, Slot::Free, context, Slot::Free);
    }
    if keyed {
        return inside(kept(row), context, Slot::Free, context, Slot::OfMethod);
    }
    inside(kept(row), context, Slot::OfMethod, context, Slot::OfMethod)
}

// A Field: its computed key is outside, its value is not.
fn on_field(q: Spot, row: Words, switches: Switches, at: usize) -> Act<Spot>
    ensures { (N : Names) (l : Bool) (i : Rows) → Does (switches_of switches) (context_of q.context) (act_of N (switches_of switches) l (context_of q.context) (slot_number q.slot) at RuleKind.field row.kind row.attr row.name i) result }
{
    let context = q.context;
    let value = context.in_value(switches, at);
    if has_bit(1, row.attr) {
        return inside(kept(row), context, Slot::Free, value, Slot::Free);
    }
    inside(kept(row), value, Slot::Free, value, Slot::Free)
}

// A StaticBlock.
fn on_static(q: Spot, row: Words, switches: Switches, at: usize) -> Act<Spot>
    ensures { (N : Names) (l : Bool) (i : Rows) → Does (switches_of switches) (context_of q.context) (act_of N (switches_of switches) l (context_of q.context) (slot_number q.slot) at RuleKind.static row.kind row.attr row.name i) result }
{
    let context = q.context.in_static(switches, at);
    inside(kept(row), context, Slot::Free, context, Slot::Free)
}

// What is done with a row of these words at row `at`. `late`: of a constructor, a Super is left in
// place; `arguments`: of an Ident, that is its name.
#[tactic(auto, unfolding(steps::specs::Acts::act, steps::specs::Acts::kind_of))]
pub fn decide(
    q: Spot,
    row: Words,
    switches: Switches,
    at: usize,
    late: bool,
    below: Below,
    arguments: bool,
) -> Act<Spot>
    ensures { (N : Names) (i : Rows) → Asked i below → (row.kind ≡ 11 → arguments ≡ named_arguments N row.name)
        → Does (switches_of switches) (context_of q.context) (act N (switches_of switches) late (context_of q.context) (slot_number q.slot) at row.kind row.attr row.name i) result }
{
    let kind = Kind::from(row.kind);
    match kind {
        Kind::This => on_this(q, row),
        Kind::Super => on_super(q, row),
        Kind::Ident => on_ident(q, row, switches.is_async_only(), arguments),
        Kind::Member | Kind::Computed => on_access(q, row, below.first_super),
        Kind::Call => on_call(q, row, below.first_access),
        Kind::Assign => on_assign(q, row, below.deep_access),
        Kind::Arrow => on_arrow(q, row, switches),
        Kind::Function => on_function(q, row, switches, at, late),
        Kind::Method | Kind::Property => on_keyed(q, row, holds_method(kind, row.attr)),
        Kind::Field => on_field(q, row, switches, at),
        Kind::StaticBlock => on_static(q, row, switches, at),
        Kind::Target => on_target(q, row),
        _ => on_other(q, row),
    }
}
