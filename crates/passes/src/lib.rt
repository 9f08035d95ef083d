// Module 7, After super: what is done with each row while the converted body is written.

#![tactic(auto)]

pub mod slots;
pub mod states;

ghost use Rattle.std.specs.Prelude.{◌≡◌, cond, ◌&&◌, ◌||◌, eqb};
ghost use Rattle.grammar.specs.Codes.{kind_number};
ghost use Rattle.grammar.specs.Kinds.{Block, Body, Class, Field, Function, Method, StaticBlock};
ghost use Rattle.steps.specs.Acts.{Op.row};
ghost use Rattle.steps.specs.Bindings.{closes};
ghost use Rattle.steps.specs.AfterSuper.{list, visit, copy, once, heritage, members};
ghost use Rattle.steps.specs.Fused.{met_of, direct_of, within, own, scan_of, next_of, anew, pass_of};
ghost use Rattle.passes.specs.View.{slot_number, state_number, op_of, in_sequence, is_behind, Says};

use grammar::kind::Kind;
use slots::Slot;
use states::State;
use steps::has_bit;
use uses::{Access, Capture};

// What becomes of a row.
#[derive(Clone, Copy)]
pub enum Becomes {
    // A row of these words around what its children become: its kind too is handed on as the number that the table has.
    Row {
        kind: usize,
        attr: usize,
        name: usize,
    },
    // What its children become stands in its place.
    Drop,
    // A captured Ident, of that use and frame.
    Name {
        usage: Capture,
        frame: usize,
    },
    // A Call of the accessor of that use, frame and property; `called`: it is `get().call(this, ..)`.
    Call {
        usage: Access,
        frame: usize,
        property: usize,
        called: bool,
    },
}

// Where module 7 puts its assignment at a row.
#[derive(Clone, Copy)]
pub enum Assigned {
    // Nowhere.
    Nowhere,
    // In a Sequence of the row and it.
    InSequence,
    // Behind the row, as a statement.
    Behind,
}

impl Assigned {
    // Whether the row becomes a Sequence.
    pub fn in_sequence(self) -> bool
        ensures { result ≡ in_sequence self }
    {
        matches!(self, Assigned::InSequence)
    }

    // Whether the assignment goes behind the row.
    pub fn is_behind(self) -> bool
        ensures { result ≡ is_behind self }
    {
        matches!(self, Assigned::Behind)
    }
}

// What module 7 says of a row: where the assignment goes, the state of its children and of the rows after it, and the binding
// assigned in its children: a number, 0 for none, as the definition has it, of which nothing asks whether there is one. An Option would
// be turned back into that number at each row.
#[derive(Clone, Copy)]
pub struct Pass {
    pub assigned: Assigned,
    pub scan: State,
    pub next: State,
    pub bind: usize,
}

// "Any other called Super becomes a Sequence of itself and that assignment"; `sup`: its first child is Super. "In each list (a Body's or
// Block's children) the first direct `super(..)` statement"; `called`: its first child is a Call of Super.
#[tactic(auto, unfolding(steps::specs::Fused::met_of, steps::specs::Fused::direct_of))]
fn assigned_of(state: State, kind: Kind, sup: bool, called: bool) -> Assigned
    ensures met { in_sequence result ≡ met_of (state_number state) (kind_number kind) sup }
    ensures first { is_behind result ≡ direct_of (state_number state) (kind_number kind) called }
{
    match kind {
        Kind::Call if sup => match state {
            State::Visit | State::Once | State::Heritage => Assigned::InSequence,
            _ => Assigned::Nowhere,
        },
        Kind::ExprStmt if called => match state {
            State::List => Assigned::Behind,
            _ => Assigned::Nowhere,
        },
        _ => Assigned::Nowhere,
    }
}

// The state inside of a row that the steps add.
#[tactic(auto, unfolding(steps::specs::Fused::within))]
fn within(state: State) -> State
    ensures { state_number result ≡ within (state_number state) }
{
    match state {
        State::Copy | State::Members => State::Copy,
        _ => State::Visit,
    }
}

// The state of a row in that slot: "an expression body becomes a Body with one Return" around it.
fn own(slot: Slot, state: State) -> State
    ensures { state_number result ≡ own (slot_number slot) (state_number state) }
{
    match slot {
        Slot::Wrapped => within(state),
        _ => state,
    }
}

// The state of the rows after it: "the scan of that list stops".
#[tactic(auto, unfolding(steps::specs::Fused::next_of))]
fn next_of(state: State, assigned: Assigned) -> State
    ensures { state_number result ≡ next_of (state_number state) (is_behind assigned) }
{
    match state {
        State::Heritage => State::Members,
        State::Once | State::Direct => State::Copy,
        _ if assigned.is_behind() => State::Copy,
        _ => state,
    }
}

// Whether a row closes a frame: Program, StaticBlock, a Function's Body.
#[tactic(auto, unfolding(steps::specs::Bindings::closes))]
pub fn closes(slot: Slot, kind: Kind) -> bool
    ensures { result ≡ closes (slot_number slot) (kind_number kind) }
{
    match kind {
        Kind::Program | Kind::StaticBlock => true,
        Kind::Body => matches!(slot, Slot::BodyOf | Slot::LateBody),
        _ => false,
    }
}

// Module 8, "with module 7 run, in a constructor where a Super left in place has that constructor as
// nearest Function": the children are such a Body's. `m` is the frame's captured `this`, 0 for none, as the definition has it: an Option
// would have to say too that what it holds is not 0, by a type of its own or by a `requires`.
fn anew(slot: Slot, kind: Kind, m: usize) -> bool
    ensures { result ≡ anew (slot_number slot) (kind_number kind) m }
{
    closes(slot, kind) & ((slot == Slot::LateBody) & !(m == 0))
}

// Inside of a Class: "only heritage and computed keys"; `keyed`: its key is computed.
fn scan_member(kind: Kind, keyed: bool) -> State
    ensures { state_number result ≡ cond ((eqb (kind_number kind) Method || eqb (kind_number kind) Field) && keyed) once copy }
{
    match kind {
        Kind::Method | Kind::Field if keyed => State::Once,
        _ => State::Copy,
    }
}

// The state of the children of a row that stays where rows are visited: "Functions and StaticBlocks
// are not entered; of a Class only heritage and computed keys are." `set`: bit 0 of its attr.
fn scan_kind(kind: Kind, set: bool) -> State
    ensures { state_number result ≡ cond (eqb (kind_number kind) Block || eqb (kind_number kind) Body) list
        (cond (eqb (kind_number kind) Function || eqb (kind_number kind) StaticBlock) copy (cond (eqb (kind_number kind) Class) (cond set heritage members) visit)) }
{
    match kind {
        Kind::Block | Kind::Body => State::List,
        Kind::Function | Kind::StaticBlock => State::Copy,
        Kind::Class if set => State::Heritage,
        Kind::Class => State::Members,
        _ => State::Visit,
    }
}

// The state of the children of a row that stays, of that kind and attr.
fn scan_row(state: State, assigned: Assigned, kind: Kind, attr: usize) -> State
    ensures { state_number result ≡ scan_of (state_number state) (in_sequence assigned) (is_behind assigned) (row (kind_number kind) attr 0) }
{
    let set = has_bit(1, attr);
    if (state == State::Copy) | assigned.in_sequence() {
        return State::Copy;
    }
    if state == State::Direct {
        return State::Visit;
    }
    if assigned.is_behind() {
        return State::Direct;
    }
    if state == State::Members {
        return scan_member(kind, set);
    }
    scan_kind(kind, set)
}

// The state of a row's children: "has its arguments visited"; "its arguments not visited".
#[tactic(auto, unfolding(crate::specs::View::op_of, steps::specs::Fused::scan_of))]
fn scan_of(state: State, assigned: Assigned, op: Becomes) -> State
    ensures { state_number result ≡ scan_of (state_number state) (in_sequence assigned) (is_behind assigned) (op_of op) }
{
    match op {
        Becomes::Row { kind, attr, .. } => scan_row(state, assigned, Kind::from(kind), attr),
        Becomes::Drop => state,
        Becomes::Name { .. } => State::Copy,
        Becomes::Call { .. } => within(state),
    }
}

// What module 7 says of a row of that kind and slot, in a list of that state where `b` is assigned.
pub fn pass_of(
    b: usize,
    state: State,
    slot: Slot,
    kind: Kind,
    m: usize,
    sup: bool,
    called: bool,
    op: Becomes,
) -> Pass
    ensures { Says result (pass_of b (state_number state) (slot_number slot) (kind_number kind) m sup called (op_of op)) }
{
    // Nothing is visited, and no list starts anew: nearly every row.
    if (state == State::Copy) & !(slot == Slot::LateBody) {
        return Pass {
            assigned: Assigned::Nowhere,
            scan: State::Copy,
            next: State::Copy,
            bind: b,
        };
    }
    let here = own(slot, state);
    let assigned = assigned_of(here, kind, sup, called);
    let next = next_of(state, assigned);
    if anew(slot, kind, m) {
        return Pass {
            assigned,
            scan: State::List,
            next,
            bind: m,
        };
    }
    Pass {
        assigned,
        scan: scan_of(here, assigned, op),
        next,
        bind: b,
    }
}
