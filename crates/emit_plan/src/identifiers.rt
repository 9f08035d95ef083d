// The Idents of bindings, each written behind what the writer has put.
ghost use Rattle.std.specs.Prelude.{◌≡◌, ◌+◌, ◌*◌, ◌<◌, ◌≤◌, ◌^◌, length};
ghost use Rattle.grammar.specs.Kinds.{Ident};
ghost use Rattle.forest.specs.Forest.{Rows.none, Rows.node};
ghost use Rattle.steps.specs.Outcome.{names_of};
ghost use Rattle.steps.specs.Bindings.{number};
ghost use Rattle.bindings.specs.Store.{binds, capture_at};
ghost use Rattle.bindings.specs.Filed.{Filed, behind};
ghost use Rattle.uses.specs.Uses.{capture_number, access_number};
ghost use Rattle.output.specs.Held.{Puts};
ghost use Rattle.emit_plan.specs.Idents.{this_row};

use bindings::frame::Frame;
use bindings::{TABLES, capture_at};
use grammar::kind::Kind;
use output::writer::Writer;
use spelling::Names;
use uses::{Access, Capture};

// A captured Ident: of `this` or of `arguments`.
// The bare array, here and in `get_this_identifier`, and no `Frame`: what is read is one word, of an array too that no `Maker` has made.
pub fn captured_identifier(
    made: &[u32],
    cap: usize,
    usage: Capture,
    frame: usize,
    w: &mut Writer<'_>,
)
    requires made_len { (length made.now ≡ TABLES * cap) × ((cap ≤ 16384) × (frame < cap)) }
    requires at_bound { w.old.at + 1 < 2 ^ 32 }
    ensures same_reference { w.new.rows.ghost_name ≡ w.old.rows.ghost_name }
    ensures rows { Puts w.old (node Ident 1 (capture_at made.now cap (capture_number usage) frame) none none) w.new }
{
    w.leaf(Kind::Ident as u32, 1, capture_at(made, cap, usage, frame));
}

// The This of a place: captured in that frame where it takes one.
pub fn get_this_identifier(
    made: &[u32],
    cap: usize,
    takes_this: bool,
    frame: usize,
    w: &mut Writer<'_>,
)
    requires made_len { (length made.now ≡ TABLES * cap) × ((cap ≤ 16384) × (frame < cap)) }
    requires at_bound { w.old.at + 1 < 2 ^ 32 }
    ensures same_reference { w.new.rows.ghost_name ≡ w.old.rows.ghost_name }
    ensures rows { Puts w.old (this_row made.now cap takes_this frame) w.new }
{
    if takes_this {
        return captured_identifier(made, cap, Capture::This, frame, w);
    }
    w.leaf(Kind::This as u32, 0, 0);
}

// The Ident of an accessor.
pub fn accessor_identifier(
    names: &Names<'_>,
    opened: Frame<'_>,
    usage: Access,
    property: usize,
    w: &mut Writer<'_>,
)
    requires at_bound { w.old.at + 1 < 2 ^ 32 }
    requires filed { Filed names.now.pairs.now names.now.text.now (behind opened.bindings.cap opened.bindings.made.now) opened.bindings.cap (binds opened.bindings.made.now opened.bindings.cap opened.bindings.count) }
    ensures same_reference { w.new.rows.ghost_name ≡ w.old.rows.ghost_name }
    ensures rows { Puts w.old (node Ident 1 (number (names_of names.now.pairs.now names.now.text.now)
        (binds opened.entry.bindings.made.now opened.entry.bindings.cap opened.entry.bindings.count) (access_number usage) opened.entry.row property) none none) w.new }
{
    let b = opened.accessor(names, usage, property);
    w.leaf(Kind::Ident as u32, 1, b as u32);
}
