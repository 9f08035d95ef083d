// What is done with row i of a table, read from its bytes.

#![tactic(auto)]

pub mod late;
mod often;
pub mod place;
pub mod stays;

ghost use Rattle.std.specs.Prelude.{◌≡◌, Bool, ℕ};
ghost use Rattle.names.specs.Words.{words, kind_at, attr_at, name_at};
ghost use Rattle.names.specs.Names.{is_arguments};
ghost use Rattle.steps.specs.Outcome.{names_of};
ghost use Rattle.steps.specs.Acts as steps;
ghost use Rattle.below.specs.Below.{children};
ghost use Rattle.acts.specs.View.{switches_of};
ghost use Rattle.acts.specs.Deciding.{spot_of};
ghost use Rattle.plan.specs.Frames.{Small};
ghost use Rattle.plan.specs.Placing.{place_of};
ghost use Rattle.plan.specs.Taking.{Takes, Placeable};

use acts::act::{Act, Spot, Words, decide};
use acts::switches::Switches;
use below::{Node, attr_at, kind_at, name_at};
use grammar::kind::Kind;
use often::{arrow_act, body_act, function_act, method_act, this_act};
use passes::Becomes;
use place::{Place, placed};
use spelling::Names;

// Of an Ident, whether its name is `arguments`.
fn named_arguments(names: &Names<'_>, kind: usize, name: usize) -> bool
    ensures { kind ≡ 11 → result ≡ is_arguments names.now.pairs.now names.now.text.now name }
{
    match Kind::from(kind) {
        Kind::Ident => names.is_arguments(name),
        _ => false,
    }
}

// The same, copied part by part: a copy of the whole would wait for the parts, which were just written.
fn part_by_part(op: Becomes) -> Becomes
    ensures { result ≡ op }
{
    match op {
        Becomes::Row { kind, attr, name } => Becomes::Row { kind, attr, name },
        Becomes::Drop => Becomes::Drop,
        Becomes::Name { usage, frame } => Becomes::Name { usage, frame },
        Becomes::Call {
            usage,
            frame,
            property,
            called,
        } => Becomes::Call {
            usage,
            frame,
            property,
            called,
        },
    }
}

// An act, and where the row's children are, in numbers.
fn hand_on(act: Act<Spot>) -> Act<Place>
    requires { Placeable act }
    ensures { (result.op ≡ act.op) × ((place_of result.one ≡ spot_of act.one) × (place_of result.more ≡ spot_of act.more)) }
{
    let op = act.op;
    let one = act.one;
    let more = act.more;
    Act {
        op: part_by_part(op),
        one: placed(one),
        more: placed(more),
    }
}

// The words of a row. The name further below is read for the contract alone: no code is left of it.
fn words_at(node: Node<'_>) -> Words
    ensures kind { result.kind ≡ kind_at (words node.entry.rows.now) node.entry.at }
    ensures attr { result.attr ≡ attr_at (words node.entry.rows.now) node.entry.at }
    ensures name { result.name ≡ name_at (words node.entry.rows.now) node.entry.at }
    ensures small { Small (words node.entry.rows.now) node.entry.at }
{
    let deep = node.deep_name();
    Words {
        kind: kind_at(node.rows, node.at),
        attr: attr_at(node.rows, node.at),
        name: name_at(node.rows, node.at),
    }
}

// The act of a row of any kind: what stands below it is read, and its place taken apart.
fn any_act(
    node: Node<'_>,
    names: &Names<'_>,
    switches: Switches,
    q: Place,
    row: Words,
    late: bool,
) -> Act<Place>
    ensures { Takes (switches_of switches) (place_of q).ctx
        (steps.act (names_of names.now.pairs.now names.now.text.now) (switches_of switches) late (place_of q).ctx (place_of q).slot node.entry.at
        row.kind row.attr row.name (children (words node.entry.rows.now) node.entry.at)) result }
{
    let below = node.look();
    let arguments = named_arguments(names, row.kind, row.name);
    let spot = q.spot();
    hand_on(decide(spot, row, switches, node.at, late, below, arguments))
}

// What is done with a row. `late`: of a constructor, a Super is left in place. Names and switches, here and in `late`, are no struct:
// tried, and collect, which would make one of its own two, took 7 instructions a row more; with the other changes of that day a conversion
// of `deep` in AsyncOnly took 3.2 per cent more than before them, over the bar of 3.
pub fn row_act(
    node: Node<'_>,
    names: &Names<'_>,
    switches: Switches,
    q: Place,
    late: bool,
) -> Act<Place>
    ensures takes { Takes (switches_of switches) (place_of q).ctx
        (steps.act (names_of names.now.pairs.now names.now.text.now) (switches_of switches) late (place_of q).ctx (place_of q).slot node.entry.at
        (kind_at (words node.entry.rows.now) node.entry.at) (attr_at (words node.entry.rows.now) node.entry.at) (name_at (words node.entry.rows.now) node.entry.at) (children (words node.entry.rows.now) node.entry.at)) result }
    ensures small { Small (words node.entry.rows.now) node.entry.at }
{
    let row = words_at(node);
    match Kind::from(row.kind) {
        Kind::This => this_act(q, row),
        Kind::Method => method_act(q, row),
        Kind::Body => body_act(q, row),
        Kind::Function => function_act(q, row, switches, node.at, late),
        Kind::Arrow => arrow_act(q, row, switches, node.at, late),
        _ => any_act(node, names, switches, q, row, late),
    }
}

// The same, for the walks: small, so that it is compiled into them, and they copy what becomes of the row part by part.
pub fn act_at(
    node: Node<'_>,
    names: &Names<'_>,
    switches: Switches,
    q: Place,
    late: bool,
) -> Act<Place>
    ensures takes { Takes (switches_of switches) (place_of q).ctx
        (steps.act (names_of names.now.pairs.now names.now.text.now) (switches_of switches) late (place_of q).ctx (place_of q).slot node.entry.at
        (kind_at (words node.entry.rows.now) node.entry.at) (attr_at (words node.entry.rows.now) node.entry.at) (name_at (words node.entry.rows.now) node.entry.at) (children (words node.entry.rows.now) node.entry.at)) result }
    ensures small { Small (words node.entry.rows.now) node.entry.at }
{
    let act = row_act(node, names, switches, q, late);
    let op = act.op;
    let one = act.one;
    let more = act.more;
    Act {
        op: part_by_part(op),
        one,
        more,
    }
}
