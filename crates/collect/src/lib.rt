// The first walk: the bindings, "captures and accessors when first met on the walk, prop and value as
// the frame closes".

#![tactic(auto)]

ghost use Rattle.std.specs.Prelude.{◌≡◌, []};
ghost use Rattle.names.specs.Words.{rows_in};
ghost use Rattle.forest.specs.Forest.{table};
ghost use Rattle.steps.specs.Bindings as steps;
ghost use Rattle.steps.specs.Context.{made_c};
ghost use Rattle.bindings.specs.Post.{Kept, Asked};
ghost use Rattle.bindings.specs.Filed.{Filed, behind};
ghost use Rattle.bindings.specs.Making.{named_of, list_of, behind_of, FiledOf};
ghost use Rattle.acts.specs.View.{switches_of, context_of};
ghost use Rattle.passes.specs.View.{op_of};
ghost use Rattle.plan.specs.Placing.{place_of};
ghost use Rattle.plan.specs.Ranged.{Ranged};
ghost use Rattle.collect.specs.Collecting.{Meets, Finishes, RowCollects, Collects, Starts, is_called, leave_capture, row_of, rows_of};

use acts::context::Context;
use acts::switches::Switches;
use below::{Node, attr_at, end_at, kind_at};
use bindings::maker::Maker;
use grammar::kind::Kind;
use passes::{Becomes, closes};
use plan::act_at;
use plan::late::is_late;
use plan::place::{Place, program};
use plan::stays::stays;
use spelling::Names;
use uses::Capture;

// What a row meets before its children.
fn meet(op: Becomes, maker: &mut Maker<'_>, names: &Names<'_>)
    requires meets { Meets maker.old.made.now maker.old.cap maker.old.count op (steps.meet (named_of names.now) (op_of op) (list_of maker.old)) }
    requires filed { FiledOf names.now maker.old }
    ensures same_reference { maker.new.made.ghost_name ≡ maker.old.made.ghost_name }
    ensures cap_value { maker.new.cap ≡ maker.old.cap }
    ensures kept { Kept maker.new.made.now maker.old.cap (steps.meet (named_of names.now) (op_of op) (list_of maker.old)) maker.new.count }
    ensures filed_2 { FiledOf names.now maker.new }
{
    match op {
        Becomes::Row { .. } => {}
        Becomes::Drop => {}
        Becomes::Name { usage, frame } => maker.capture(frame, usage),
        Becomes::Call {
            usage,
            frame,
            property,
            ..
        } => maker.note_super(names, frame, usage, property as u32),
    }
}

// Whether it becomes `get().call(this, ..)`.
#[tactic(auto, unfolding(crate::specs::Collecting::is_called, passes::specs::View::op_of))]
fn is_called(op: Becomes) -> bool
    ensures { result ≡ is_called (op_of op) }
{
    match op {
        Becomes::Call { called, .. } => called,
        Becomes::Row { .. } | Becomes::Drop | Becomes::Name { .. } => false,
    }
}

// What it meets after them: the new This of `super.m(a)`, "met after k, going through module 3".
fn leave(op: Becomes, context: Context, maker: &mut Maker<'_>)
    requires { Asked maker.old.made.now maker.old.cap context.this_at maker.old.count (leave_capture (context_of context) (op_of op) (list_of maker.old)) }
    ensures same_reference { maker.new.made.ghost_name ≡ maker.old.made.ghost_name }
    ensures cap_value { maker.new.cap ≡ maker.old.cap }
    ensures kept { Kept maker.new.made.now maker.old.cap (leave_capture (context_of context) (op_of op) (list_of maker.old)) maker.new.count }
    ensures made_unchanged { behind_of maker.new ≡ behind_of maker.old }
{
    if is_called(op) & context.takes_this {
        maker.capture(context.this_at, Capture::This);
    }
}

// What is left to do after a row's children: what it meets then, and its frame closes where it is
// the end of one.
fn finish(op: Becomes, context: Context, closing: bool, frame: usize, maker: &mut Maker<'_>)
    requires { Finishes maker.old.made.now maker.old.cap maker.old.count context.this_at frame (steps.closed closing frame (leave_capture (context_of context) (op_of op) (list_of maker.old))) }
    ensures same_reference { maker.new.made.ghost_name ≡ maker.old.made.ghost_name }
    ensures cap_value { maker.new.cap ≡ maker.old.cap }
    ensures kept { Kept maker.new.made.now maker.old.cap (steps.closed closing frame (leave_capture (context_of context) (op_of op) (list_of maker.old))) maker.new.count }
    ensures made_unchanged { behind_of maker.new ≡ behind_of maker.old }
{
    leave(op, context, maker);
    if closing {
        maker.close(frame);
    }
}

// The bindings that row i, which ends at `stop`, and its children add to those of the maker. Rows, names and switches, here and below, are no struct:
// each call below would take it apart, as plan's functions take names and switches (the reason is at `row_act`) and a Node takes the rows.
#[cycle(collect_rows)]
fn collect_row(
    rows: &[u8],
    names: &Names<'_>,
    switches: Switches,
    q: Place,
    i: usize,
    stop: usize,
    maker: &mut Maker<'_>,
)
    requires row_collects { RowCollects rows.now maker.old.made.now maker.old.cap maker.old.count (place_of q) i stop (row_of names.now switches q rows.now i (list_of maker.old)) }
    requires filed { FiledOf names.now maker.old }
    ensures same_reference { maker.new.made.ghost_name ≡ maker.old.made.ghost_name }
    ensures cap_value { maker.new.cap ≡ maker.old.cap }
    ensures kept { Kept maker.new.made.now maker.old.cap (row_of names.now switches q rows.now i (list_of maker.old)) maker.new.count }
    ensures filed_2 { FiledOf names.now maker.new }
{
    let from = i + 1;
    let kind = kind_at(rows, i);
    if stays(switches, q, kind, attr_at(rows, i)) {
        if stop <= from {
            return;
        }
        let along = q.inside();
        return collect(rows, names, switches, along, along, from, stop, maker);
    }
    let node = Node { rows, at: i };
    let late = is_late(node, names, switches, q);
    let act = act_at(node, names, switches, q, late);
    let op = act.op;
    meet(op, maker, names);
    let more = act.more;
    collect(rows, names, switches, act.one, more, from, stop, maker);
    let closing = closes(q.slot(), Kind::from(kind));
    let spot = q.spot();
    let frame = more.this_at();
    finish(op, spot.context, closing, frame, maker);
}

// The bindings that the rows from `from` to `end` add to those of the maker. The first row is at
// `one`, the later ones are at `more`.
#[cycle(collect_rows)]
pub fn collect(
    rows: &[u8],
    names: &Names<'_>,
    switches: Switches,
    one: Place,
    more: Place,
    from: usize,
    end: usize,
    maker: &mut Maker<'_>,
)
    requires ranged { Ranged rows.now from end }
    requires collects { Collects (rows_in rows.now) maker.old.made.now maker.old.cap maker.old.count (place_of one) (place_of more) (rows_of names.now switches one more rows.now from end (list_of maker.old)) }
    requires filed { FiledOf names.now maker.old }
    ensures same_reference { maker.new.made.ghost_name ≡ maker.old.made.ghost_name }
    ensures cap_value { maker.new.cap ≡ maker.old.cap }
    ensures kept { Kept maker.new.made.now maker.old.cap (rows_of names.now switches one more rows.now from end (list_of maker.old)) maker.new.count }
    ensures filed_2 { FiledOf names.now maker.new }
{
    let mut i = from;
    let mut q = one;
    // A loop by hand: the place changes from the first row to the later ones, and `end` of a row is its children's end too; forest's
    // `Children`, with its field `next` in the place of `stop`, would take as many lines, and be no plainer.
    while i < end {
        let stop = end_at(rows, i);
        collect_row(rows, names, switches, q, i, stop, maker);
        q = more;
        i = stop;
    }
}

// The bindings of a whole table, made in the lent array. The answer is their number.
pub fn make_bindings(
    rows: &[u8],
    names: &Names<'_>,
    switches: Switches,
    made: &mut [u32],
    cap: usize,
) -> usize
    requires ranged { Ranged rows.now 0 (rows_in rows.now) }
    requires starts { Starts (rows_in rows.now) made.old cap (made_c (named_of names.now) (switches_of switches) (table rows.now)) }
    requires filed { Filed names.now.pairs.now names.now.text.now (behind cap made.old) cap [] }
    ensures kept { Kept made.new cap (made_c (named_of names.now) (switches_of switches) (table rows.now)) result }
    ensures filed_2 { Filed names.now.pairs.now names.now.text.now (behind cap made.new) cap (made_c (named_of names.now) (switches_of switches) (table rows.now)) }
{
    let start = program();
    let end = rows.len() / 16;
    let mut maker = Maker {
        made,
        cap,
        count: 0,
    };
    collect(rows, names, switches, start, start, 0, end, &mut maker);
    maker.count
}
