// The plan of a row: decided before it is written, outside of the walkers.
ghost use Rattle.std.specs.Prelude.{◌≡◌, true, ◌||◌, eqb, ◌+◌, ◌*◌, ◌≤◌, ◌<◌, length};
ghost use Rattle.grammar.specs.Kinds.{Block, Body, Call, Class, Function, StaticBlock};
ghost use Rattle.names.specs.Words.{words, rows_in};
ghost use Rattle.steps.specs.AfterSuper.{super_call};
ghost use Rattle.steps.specs.Fused.{direct_of};
ghost use Rattle.passes.specs.View.{state_number};
ghost use Rattle.below.specs.Below.{At, children};
ghost use Rattle.acts.specs.View.{switches_of};
ghost use Rattle.plan.specs.Placing.{place_of};
ghost use Rattle.plan.specs.Frames.{FramesBelow};
ghost use Rattle.emit_plan.specs.Walkers.{is_statement, is_function, is_class};
ghost use Rattle.emit_plan.specs.Plans.{HoldsOf, PlannedOf, RowPreOf};
ghost use Rattle.emit_plan.specs.Unchanged.{Steady, inside_state, Unchanged, WordsOf, Along};

use crate::{Head, Plan, Siblings, Walk};
use acts::switches::Switches;
use below::{Node, attr_at, end_at, kind_at, name_at};
use bindings::frame::Frame;
use grammar::kind::Kind;
use passes::pass_of;
use passes::states::State;
use plan::act_at;
use plan::late::is_late;
use plan::place::Place;
use plan::stays::stays;

// Statements, and a Var's Declarators. Here and below a kind is the number of a plan's words. These sets are functions of their own: one
// over a set would take the same list at each call, and be no plainer.
pub fn is_statement(kind: usize) -> bool
    ensures { result ≡ is_statement kind }
{
    matches!(
        Kind::from(kind),
        Kind::ExprStmt | Kind::Var | Kind::Declarator | Kind::Return | Kind::Block | Kind::Other
    )
}

// The rows that a Function or an Arrow is made of, and the others that close a frame.
pub fn is_function(kind: usize) -> bool
    ensures { result ≡ is_function kind }
{
    matches!(
        Kind::from(kind),
        Kind::Program | Kind::Arrow | Kind::Function | Kind::Params | Kind::Body | Kind::StaticBlock
    )
}

// A Class and its members.
pub fn is_class(kind: usize) -> bool
    ensures { result ≡ is_class kind }
{
    matches!(Kind::from(kind), Kind::Class | Kind::Method | Kind::Field)
}

// The plan of row i, which stands at `q` in a list of that state. By its number, no Node: the rows are the walk's, and a Node would
// hold them a second time. The row's words are read here and in `act_at`, which answers an act alone, as collect, which asks it too, wants no more.
pub fn plan_at(walk: &Walk<'_, '_>, bind: usize, state: State, q: Place, i: usize) -> Plan
    requires at { At walk.now.rows.now (rows_in walk.now.rows.now) i }
    requires holds { HoldsOf walk.now }
    requires frames_below { FramesBelow walk.now.bindings.cap (place_of q).ctx × (bind ≤ 16384) }
    ensures planned { PlannedOf walk.now bind (state_number state) (place_of q) i result }
    ensures row_pre { RowPreOf walk.now result }
{
    let rows = walk.rows;
    let node = Node { rows, at: i };
    let late = is_late(node, &walk.names, walk.switches, q);
    let act = act_at(node, &walk.names, walk.switches, q, late);
    let head = head_at(rows, i);
    let end = end_at(rows, i);
    let sup = node.over_super();
    let called = node.super_call();
    let op = act.op;
    let one = act.one;
    let more = act.more;
    let opened = Frame {
        bindings: walk.bindings,
        row: more.this_at(),
    };
    let m = opened.this_of() as usize;
    let slot = q.slot();
    let kind = Kind::from(head.kind as usize);
    let pass = pass_of(bind, state, slot, kind, m, sup, called, op);
    Plan {
        inner: Siblings {
            from: i + 1,
            end,
            bind: pass.bind,
            state: pass.scan,
            one,
            more,
        },
        spot: q,
        slot,
        bind,
        head,
        op,
        assigned: pass.assigned,
        next: pass.next,
    }
}

// Whether module 7 says something of rows of that kind where rows are visited: a Call may be that of a called Super, and
// inside of the others the state is another one.
fn changes_state(kind: usize) -> bool
    ensures { result ≡ (eqb kind StaticBlock || eqb kind Call || eqb kind Block || eqb kind Body || eqb kind Function || eqb kind Class) }
{
    matches!(
        Kind::from(kind),
        Kind::StaticBlock | Kind::Call | Kind::Block | Kind::Body | Kind::Function | Kind::Class
    )
}

// Whether module 7 leaves a row of that kind alone in a list of that state, but for a direct `super(..)`: the rows after
// it are in the same state, and its children in that of `inside_state`.
fn is_steady(state: State, kind: usize) -> bool
    ensures { result ≡ true → Steady (state_number state) kind }
{
    if state == State::Copy {
        return true;
    }
    ((state == State::Visit) | (state == State::List)) & !changes_state(kind)
}

// The state inside such a row: a statement list's rows are visited.
fn inside_state(state: State) -> State
    ensures { state_number result ≡ inside_state (state_number state) }
{
    match state {
        State::List => State::Visit,
        _ => state,
    }
}

// Whether a row is a direct `super(..)` statement of a list in which none was met yet.
#[tactic(auto, unfolding(steps::specs::Fused::direct_of))]
fn is_direct(node: Node<'_>, state: State, kind: usize) -> bool
    ensures { result ≡ direct_of (state_number state) kind (super_call (children (words node.entry.rows.now) node.entry.at)) }
{
    match Kind::from(kind) {
        Kind::ExprStmt if state == State::List => node.super_call(),
        _ => false,
    }
}

// Whether a row is known to stay as it is, with its children in its place and the state inside it.
pub fn stays_at(node: Node<'_>, switches: Switches, state: State, q: Place) -> bool
    ensures { result ≡ true → Unchanged (switches_of switches) (place_of q) (state_number state) (words node.entry.rows.now) node.entry.at }
{
    let kind = kind_at(node.rows, node.at);
    if !is_steady(state, kind) {
        return false;
    }
    if is_direct(node, state, kind) {
        return false;
    }
    stays(switches, q, kind, attr_at(node.rows, node.at))
}

// The words of row i, of which less is asked than a Node knows.
pub fn head_at(rows: &[u8], i: usize) -> Head
    requires { 16 * i + 15 < length rows.now }
    ensures { WordsOf (words rows.now) i result }
{
    Head {
        kind: kind_at(rows, i) as u32,
        attr: attr_at(rows, i) as u32,
        name: name_at(rows, i) as u32,
    }
}

// The children of a row, where they stand in its place and the state inside it.
pub fn along(node: Node<'_>, bind: usize, state: State, q: Place) -> Siblings
    ensures { Along (words node.entry.rows.now) bind (state_number state) (place_of q) node.entry.at result }
{
    let inside = q.inside();
    Siblings {
        from: node.at + 1,
        end: end_at(node.rows, node.at),
        bind,
        state: inside_state(state),
        one: inside,
        more: inside,
    }
}
