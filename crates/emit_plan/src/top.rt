// Module 8, Top insertion: the Var of a frame.
ghost use Rattle.std.specs.Prelude.{◌≡◌, ◌+◌, ◌<◌, ◌^◌};
ghost use Rattle.grammar.specs.Codes.{kind_number};
ghost use Rattle.forest.specs.Forest.{size};
ghost use Rattle.passes.specs.View.{slot_number};
ghost use Rattle.output.specs.Held.{Puts};
ghost use Rattle.emit_plan.specs.Top.{top_rows};

use bindings::frame::Frame;
use grammar::kind::Kind;
use insertion::insert_variable_statement_at_the_top_of_statements;
use output::writer::Writer;
use passes::closes;
use passes::slots::Slot;

// The Var of the frame that a row of that kind and slot closes, or nothing.
pub fn insert_at_the_top(frame: Frame<'_>, slot: Slot, kind: Kind, w: &mut Writer<'_>)
    requires { w.old.at + size (top_rows frame.bindings (slot_number slot) (kind_number kind) frame.row) < 2 ^ 32 }
    ensures same_reference { w.new.rows.ghost_name ≡ w.old.rows.ghost_name }
    ensures rows { Puts w.old (top_rows frame.entry.bindings (slot_number slot) (kind_number kind) frame.entry.row) w.new }
{
    let closing = closes(slot, kind);
    if closing {
        let guarded = kind == Kind::Program;
        let late = slot == Slot::LateBody;
        insert_variable_statement_at_the_top_of_statements(frame, guarded, late, w);
    }
}
