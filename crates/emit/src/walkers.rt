// The walkers: "Statements hold expressions, which hold functions and classes, which hold statements."
// Each writes what a plan says behind what the writer has put.
ghost use Rattle.std.specs.Prelude.{◌≡◌, false, ◌+◌, ◌<◌, ◌≤◌, ◌^◌};
ghost use Rattle.grammar.specs.Kinds.{Member, Sequence};
ghost use Rattle.forest.specs.Forest.{Rows.none, Rows.node, size};
ghost use Rattle.steps.specs.AfterSuper as after;
ghost use Rattle.passes.specs.View.{slot_number, is_behind};
ghost use Rattle.output.specs.Held.{Puts};
ghost use Rattle.plan.specs.Placing.{place_of};
ghost use Rattle.emit_plan.specs.Idents.{this_in};
ghost use Rattle.emit_plan.specs.Inside.{rows_of, topped_rows, called_with, assignment_if};
ghost use Rattle.emit_plan.specs.Plans.{built_of, dressed_of, RowPreOf};

use below::Node;
use bindings::frame::Frame;
use emit_plan::bodies::{close_body, open_body};
use emit_plan::identifiers::{accessor_identifier, captured_identifier, get_this_identifier};
use emit_plan::plans::{along, head_at, is_class, is_function, is_statement, plan_at, stays_at};
use emit_plan::top::insert_at_the_top;
use emit_plan::{Head, Inner, Plan, Walk};
use grammar::kind::Kind;
use inserted::assignment;
use output::writer::Writer;
use passes::slots::Slot;
use passes::{Assigned, Becomes};
use plan::place::Place;
use uses::Access;

// A list of siblings.
#[cycle(walk_rows)]
pub fn list(inner: Inner<'_, '_, '_>, w: &mut Writer<'_>)
    requires { w.old.at + size (rows_of inner) < 2 ^ 32 }
    ensures same_reference { w.new.rows.ghost_name ≡ w.old.rows.ghost_name }
    ensures rows { Puts w.old (rows_of inner.entry) w.new }
{
    let walk = inner.walk;
    let siblings = inner.siblings;
    let end = siblings.end;
    let bind = siblings.bind;
    let more = siblings.more;
    let mut i = siblings.from;
    let mut q = siblings.one;
    let mut state = siblings.state;
    // A loop by hand: place and state change from row to row, and a row's end is its children's end too; forest's `Children`, with its
    // field `next` in the place of it, would take as many lines, and be no plainer.
    while i < end {
        let node = Node {
            rows: walk.rows,
            at: i,
        };
        if stays_at(node, walk.switches, state, q) {
            let head = head_at(walk.rows, i);
            let children = Inner {
                walk,
                siblings: along(node, bind, state, q),
            };
            around(children, head, w);
            i = children.siblings.end;
        } else {
            let plan = plan_at(walk, bind, state, q, i);
            let statement_kind = is_statement(plan.head.kind as usize);
            // Two ways, and no match on the slot with a third for an expression body. Tried: `undressed`, which that one calls too, is then inlined
            // no more, and a conversion takes 7 per cent more instructions.
            if statement_kind & !(plan.slot == Slot::Wrapped) {
                let inside = Inner {
                    walk,
                    siblings: plan.inner,
                };
                statement(inside, plan.head, plan.assigned, plan.bind, w);
            } else {
                expression(walk, plan, w);
            }
            i = plan.inner.end;
            state = plan.next;
        }
        q = more;
    }
}

// A row of these words around what stands inside.
#[cycle(walk_rows)]
fn around(inner: Inner<'_, '_, '_>, head: Head, w: &mut Writer<'_>)
    requires { w.old.at + (1 + size (rows_of inner)) < 2 ^ 32 }
    ensures same_reference { w.new.rows.ghost_name ≡ w.old.rows.ghost_name }
    ensures rows { Puts w.old (node head.kind head.attr head.name (rows_of inner.entry) none) w.new }
{
    if inner.siblings.end <= inner.siblings.from {
        return w.leaf(head.kind, head.attr, head.name);
    }
    let row = w.at;
    w.append(head.kind, head.attr, head.name, 0);
    list(inner, w);
    w.close(row);
}

// A statement of these words, and behind the first direct `super(..)` of a list the assignment of binding `b`, as a statement. `b ≤ 16384`, here, in
// `sequence` and in `plan_at`, is no type: it would be built of the number of a `Pass` at each row, and taken apart where `assignment` writes it.
#[cycle(walk_rows)]
fn statement(inner: Inner<'_, '_, '_>, head: Head, assigned: Assigned, b: usize, w: &mut Writer<'_>)
    requires bind_bound { b ≤ 16384 }
    requires rows_bound { w.old.at + (1 + size (rows_of inner) + size (assignment_if (is_behind assigned) b)) < 2 ^ 32 }
    ensures same_reference { w.new.rows.ghost_name ≡ w.old.rows.ghost_name }
    ensures rows { Puts w.old (node head.kind head.attr head.name (rows_of inner.entry) (assignment_if (is_behind assigned) b)) w.new }
{
    around(inner, head, w);
    if !assigned.is_behind() {
        return;
    }
    let row = w.at;
    w.append(Kind::ExprStmt as u32, 0, 0, 0);
    assignment(w, b as u32);
    w.close(row);
}

// An expression; as the body of an Arrow that becomes a Function, in a Body with one Return.
#[cycle(walk_rows)]
fn expression(walk: &Walk<'_, '_>, plan: Plan, w: &mut Writer<'_>)
    requires row_pre { RowPreOf walk.now plan }
    requires first_value { is_behind plan.assigned ≡ false }
    requires rows_bound { w.old.at + size (dressed_of walk.now plan) < 2 ^ 32 }
    ensures same_reference { w.new.rows.ghost_name ≡ w.old.rows.ghost_name }
    ensures rows { Puts w.old (dressed_of walk.now plan) w.new }
{
    let wraps = plan.slot == Slot::Wrapped;
    let row = w.at;
    open_body(w, wraps);
    undressed(walk, plan, w);
    close_body(w, row, wraps);
}

// By what becomes of the row.
#[cycle(walk_rows)]
fn undressed(walk: &Walk<'_, '_>, plan: Plan, w: &mut Writer<'_>)
    requires row_pre { RowPreOf walk.now plan }
    requires first_value { is_behind plan.assigned ≡ false }
    requires rows_bound { w.old.at + size (built_of walk.now plan none) < 2 ^ 32 }
    ensures same_reference { w.new.rows.ghost_name ≡ w.old.rows.ghost_name }
    ensures rows { Puts w.old (built_of walk.now plan none) w.new }
{
    let inner = Inner {
        walk,
        siblings: plan.inner,
    };
    if plan.assigned.in_sequence() {
        return sequence(inner, plan.head, plan.bind, w);
    }
    match plan.op {
        Becomes::Row { kind, attr, name } => {
            let head = Head {
                kind: kind as u32,
                attr: attr as u32,
                name: name as u32,
            };
            kept(inner, plan.slot, plan.head.kind as usize, head, w)
        }
        Becomes::Drop => list(inner, w),
        Becomes::Name { usage, frame } => {
            let bindings = walk.bindings;
            captured_identifier(bindings.made, bindings.cap, usage, frame, w)
        }
        Becomes::Call {
            usage,
            frame,
            property,
            called,
        } => {
            if called {
                return transform_call_expression_for_super(
                    inner, plan.spot, frame, usage, property, w,
                );
            }
            transform_member_expression_for_super(inner, frame, usage, property, w)
        }
    }
}

// A row that stays a row, by its kind.
#[cycle(walk_rows)]
fn kept(inner: Inner<'_, '_, '_>, slot: Slot, kind: usize, head: Head, w: &mut Writer<'_>)
    requires { w.old.at + (1 + size (topped_rows inner (slot_number slot) kind)) < 2 ^ 32 }
    ensures same_reference { w.new.rows.ghost_name ≡ w.old.rows.ghost_name }
    ensures rows { Puts w.old (node head.kind head.attr head.name (topped_rows inner.entry (slot_number slot) kind) none) w.new }
{
    if is_function(kind) {
        return function(inner, slot, kind, head, w);
    }
    if is_class(kind) {
        return class(inner, head, w);
    }
    around(inner, head, w);
}

// A part of a function, or another row that may close a frame: the frame's Var goes first.
#[cycle(walk_rows)]
fn function(inner: Inner<'_, '_, '_>, slot: Slot, kind: usize, head: Head, w: &mut Writer<'_>)
    requires { w.old.at + (1 + size (topped_rows inner (slot_number slot) kind)) < 2 ^ 32 }
    ensures same_reference { w.new.rows.ghost_name ≡ w.old.rows.ghost_name }
    ensures rows { Puts w.old (node head.kind head.attr head.name (topped_rows inner.entry (slot_number slot) kind) none) w.new }
{
    let row = w.at;
    w.append(head.kind, head.attr, head.name, 0);
    let more = inner.siblings.more;
    let frame = Frame {
        bindings: inner.walk.bindings,
        row: more.this_at(),
    };
    insert_at_the_top(frame, slot, Kind::from(kind), w);
    list(inner, w);
    w.close(row);
}

// A Class or a member of one: heritage, keys and values stand inside. It writes what `around` writes, and is a walker of its own by a rule of
// the project ("statement, expression, function and class walkers call one another", document 01).
#[cycle(walk_rows)]
fn class(inner: Inner<'_, '_, '_>, head: Head, w: &mut Writer<'_>)
    requires { w.old.at + (1 + size (rows_of inner)) < 2 ^ 32 }
    ensures same_reference { w.new.rows.ghost_name ≡ w.old.rows.ghost_name }
    ensures rows { Puts w.old (node head.kind head.attr head.name (rows_of inner.entry) none) w.new }
{
    around(inner, head, w);
}

// A called Super, in a Sequence with the assignment of binding `b`.
#[cycle(walk_rows)]
fn sequence(inner: Inner<'_, '_, '_>, head: Head, b: usize, w: &mut Writer<'_>)
    requires bind_bound { b ≤ 16384 }
    requires rows_bound { w.old.at + (6 + size (rows_of inner)) < 2 ^ 32 }
    ensures same_reference { w.new.rows.ghost_name ≡ w.old.rows.ghost_name }
    ensures rows { Puts w.old (node Sequence 0 0 (node head.kind head.attr head.name (rows_of inner.entry) (after.assignment b)) none) w.new }
{
    let row = w.at;
    w.append(Kind::Sequence as u32, 0, 0, 0);
    around(inner, head, w);
    assignment(w, b as u32);
    w.close(row);
}

// A Call of an accessor: `super.p`, `super[k]`, or an assignment to one of them. The frame is a number, here and below: a `Frame` holds bindings
// of its own, and a `requires` would have to say that they are the walk's, in the place of the one that the number is low.
#[cycle(walk_rows)]
fn transform_member_expression_for_super(
    inner: Inner<'_, '_, '_>,
    frame: usize,
    usage: Access,
    property: usize,
    w: &mut Writer<'_>,
)
    requires frame_lt_cap { frame < inner.walk.now.bindings.cap }
    requires rows_bound { w.old.at + (2 + size (rows_of inner)) < 2 ^ 32 }
    ensures same_reference { w.new.rows.ghost_name ≡ w.old.rows.ghost_name }
    ensures rows { Puts w.old (called_with inner.entry usage frame property) w.new }
{
    let walk = inner.walk;
    let row = w.at;
    w.append(Kind::Call as u32, 0, 0, 0);
    let opened = Frame {
        bindings: walk.bindings,
        row: frame,
    };
    accessor_identifier(&walk.names, opened, usage, property, w);
    list(inner, w);
    w.close(row);
}

// `super.m(a)` becomes `get().call(this, a)`: the callee, and the new This.
#[cycle(walk_rows)]
fn transform_call_expression_for_super(
    inner: Inner<'_, '_, '_>,
    q: Place,
    frame: usize,
    usage: Access,
    property: usize,
    w: &mut Writer<'_>,
)
    requires frames_low { ((place_of q).ctx.this_at < inner.walk.now.bindings.cap) × (frame < inner.walk.now.bindings.cap) }
    requires rows_bound { w.old.at + (4 + size (rows_of inner)) < 2 ^ 32 }
    ensures same_reference { w.new.rows.ghost_name ≡ w.old.rows.ghost_name }
    ensures rows { Puts w.old (node Member 1 0 (called_with inner.entry usage frame property) (this_in inner.entry.walk.now q)) w.new }
{
    let row = w.at;
    w.append(Kind::Member as u32, 1, 0, 0);
    transform_member_expression_for_super(inner, frame, usage, property, w);
    w.close(row);
    let bindings = inner.walk.bindings;
    get_this_identifier(bindings.made, bindings.cap, q.takes_this(), q.this_at(), w);
}
