// Module 8: whether a Super left in place has a constructor as its nearest Function.
ghost use Rattle.std.specs.Prelude.{◌≡◌, Bool, ℕ, ◌+◌, eqb};
ghost use Rattle.names.specs.Words.{words, kind_at, attr_at};
ghost use Rattle.forest.specs.Forest.{rows_at};
ghost use Rattle.steps.specs.Outcome.{names_of};
ghost use Rattle.steps.specs.Paths.{Step.in_params, Step.in_body};
ghost use Rattle.steps.specs.Slots.{free, of_method};
ghost use Rattle.steps.specs.Acts.{by};
ghost use Rattle.steps.specs.Context.{into, leaves_c, late_c};
ghost use Rattle.below.specs.Below.{children};
ghost use Rattle.acts.specs.View.{switches_of};
ghost use Rattle.plan.specs.Placing.{place_of};
ghost use Rattle.plan.specs.Ranged.{Ranged};

use crate::place::{Place, placed};
use crate::row_act;
use acts::act::Spot;
use acts::switches::Switches;
use below::{Node, attr_at, end_at, kind_at};
use grammar::kind::Kind;
use passes::slots::Slot;
use spelling::Names;
use steps::has_bit;

// Whether a Super stays in the rows from `from` to `end`, outside of further Functions. The first row
// is at `one`, the later ones are at `more`.
fn leaves(
    rows: &[u8],
    names: &Names<'_>,
    switches: Switches,
    one: Place,
    more: Place,
    from: usize,
    end: usize,
) -> bool
    requires { Ranged rows.now from end }
    ensures { result ≡ leaves_c (names_of names.now.pairs.now names.now.text.now) (switches_of switches) (place_of one) (place_of more) from (rows_at (words rows.now) from end) }
{
    let mut i = from;
    let mut q = one;
    // A loop by hand: the place changes from the first row to the later ones, and `end` of a row is its children's end too; forest's
    // `Children`, with its field `next` in the place of `stop`, would take as many lines, and be no plainer.
    while i < end {
        let kind = Kind::from(kind_at(rows, i));
        let stop = end_at(rows, i);
        let slot = q.slot();
        if (kind == Kind::Super) & !(slot == Slot::Dropped) {
            return true;
        }
        let first = i + 1;
        if (kind != Kind::Function) & (first < stop) {
            let node = Node { rows, at: i };
            let act = row_act(node, names, switches, q, false);
            if leaves(rows, names, switches, act.one, act.more, first, stop) {
                return true;
            }
        }
        q = more;
        i = stop;
    }
    false
}

// Whether a Super stays in a Function, outside of further Functions. Not inlined, so that `is_late` is small.
#[inline(never)]
fn function_leaves(
    node: Node<'_>,
    names: &Names<'_>,
    switches: Switches,
    q: Place,
    attr: usize,
) -> bool
    ensures { result ≡ leaves_c (names_of names.now.pairs.now names.now.text.now) (switches_of switches)
        (into (switches_of switches) (place_of q) (by (in_params node.entry.at attr (eqb (place_of q).slot of_method)) free))
        (into (switches_of switches) (place_of q) (by (in_body node.entry.at attr (eqb (place_of q).slot of_method)) free)) (node.entry.at + 1) (children (words node.entry.rows.now) node.entry.at) }
{
    let i = node.at;
    let spot = q.spot();
    let context = spot.context;
    let method = spot.slot == Slot::OfMethod;
    let params = Spot {
        context: context.in_params(switches, i, attr, method),
        slot: Slot::Free,
    };
    let body = Spot {
        context: context.in_body(switches, i, attr, method),
        slot: Slot::Free,
    };
    let stop = end_at(node.rows, i);
    leaves(
        node.rows,
        names,
        switches,
        placed(params),
        placed(body),
        i + 1,
        stop,
    )
}

// Whether a row is a constructor that is the nearest Function of a Super left in place. Inlined: the walks have read the row's
// words, and a call, to which a Node goes in memory, took them up to 3 per cent more instructions.
#[inline(always)]
#[tactic(auto, unfolding(steps::specs::Context::late_c))]
pub fn is_late(node: Node<'_>, names: &Names<'_>, switches: Switches, q: Place) -> bool
    ensures { result ≡ late_c (names_of names.now.pairs.now names.now.text.now) (switches_of switches) (place_of q) node.entry.at
        (kind_at (words node.entry.rows.now) node.entry.at) (attr_at (words node.entry.rows.now) node.entry.at) (children (words node.entry.rows.now) node.entry.at) }
{
    let attr = attr_at(node.rows, node.at);
    let constructor = has_bit(4, attr);
    match Kind::from(kind_at(node.rows, node.at)) {
        Kind::Function if constructor => function_leaves(node, names, switches, q, attr),
        _ => false,
    }
}
