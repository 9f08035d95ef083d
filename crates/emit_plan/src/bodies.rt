// Module 6, "an expression body becomes a Body with one Return": the two rows around it, where they are wanted.
ghost use Rattle.std.specs.Prelude.{◌≡◌, true, cond, ◌+◌, ◌<◌, ◌^◌};
ghost use Rattle.output.specs.Output.{set_end};
ghost use Rattle.emit_plan.specs.Dressing.{opened};

use grammar::kind::Kind;
use output::writer::Writer;

// Writes Body and Return.
pub fn open_body(w: &mut Writer<'_>, wanted: bool)
    requires { wanted ≡ true → w.old.at + 2 < 2 ^ 32 }
    ensures same_reference { w.new.rows.ghost_name ≡ w.old.rows.ghost_name }
    ensures next { w.new.at ≡ cond wanted (w.old.at + 2) w.old.at }
    ensures rows { w.new.rows.now ≡ opened wanted w.old.rows.now w.old.at }
{
    if wanted {
        w.append(Kind::Body as u32, 0, 0, 0);
        w.append(Kind::Return as u32, 0, 0, 0);
    }
}

// Ends both, the Body at row `row`, before the next row.
pub fn close_body(w: &mut Writer<'_>, row: usize, wanted: bool)
    requires { wanted ≡ true → (row + 2 < 2 ^ 32) × (w.old.at < 2 ^ 32) }
    ensures same_reference { w.new.rows.ghost_name ≡ w.old.rows.ghost_name }
    ensures next { w.new.at ≡ w.old.at }
    ensures rows { w.new.rows.now ≡ cond wanted (set_end (set_end w.old.rows.now (row + 1) w.old.at) row w.old.at) w.old.rows.now }
{
    if wanted {
        w.close(row + 1);
        w.close(row);
    }
}
