// The result of an accepted table, over an array that is lent for its bindings: the first walk, what 9
// needs to know, and the second walk; or the rows as they are, where neither has anything to do.

#![tactic(auto)]

mod records;

ghost use Rattle.std.specs.Prelude.{◌≡◌, true, leb};
ghost use Rattle.forest.specs.Forest.{size, NoRow, table as forest_of};
ghost use Rattle.steps.specs.Accepted.{Accepted};
ghost use Rattle.acts.specs.View.{switches_of};
ghost use Rattle.emit_plan.specs.Plans.{emitted_of};
ghost use Rattle.walks.specs.Ready.{Ready, CollectedOf, Gives, Unchanged, becomes_function};

use acts::switches::Switches;
use answer::{Converted, Refusal};
use bindings::view::Bindings;
use collect::make_bindings;
use emit::emit;
use emit_plan::Walk;
use grammar::kind::Kind;
use names::words::{attr_at, kind_at};
use output::writer::Writer;
use records::write_records;
use spelling::Names;
use steps::has_bit;

// A table that refusals 1, 3 to 8 and 21 to 25 leave under these switches.
#[derive(Clone, Copy)]
pub struct AcceptedTable<'a> {
    pub switches: Switches,
    pub rows: &'a [u8],
    pub names: Names<'a>,
    pub ghost accepted: { Accepted 16384 128 (switches_of switches) rows.now names.pairs.now names.text.now },
}

// Whether the rows of the result fit into room for that many. A result has at most 8 rows for each row
// and 11 for each binding, so that with much room nothing is counted.
fn has_room(walk: &Walk<'_, '_>, room: usize) -> bool
    requires { CollectedOf walk.now }
    ensures { result ≡ leb (size (emitted_of walk.now)) room }
{
    let n = walk.rows.len() / 16;
    8 * n + 11 * walk.bindings.count <= room || emit(walk, &mut []) <= room
}

// Whether no Arrow becomes a Function: "Enabled, not async".
fn keeps_arrows(table: &AcceptedTable<'_>) -> bool
    ensures { result ≡ true → NoRow (becomes_function (switches_of table.now.switches)) (forest_of table.now.rows.now) }
{
    let rows = table.rows;
    let enabled = table.switches.is_enabled();
    (0..rows.len() / 16).all(|i| {
        let kind = Kind::from(kind_at(rows, i));
        let is_async = has_bit(1, attr_at(rows, i));
        !((kind == Kind::Arrow) & (enabled & !is_async))
    })
}

// The rows as they are, where there is room for them: "Disabled: rows copied, no bindings."
// One struct of both rooms, here and in converter and thawcopper, is no plainer: lent, each function would promise besides that it still holds these
// two slices, as over a `Writer`; by value, the contracts would call what is left of them `exit.0` and `exit.1.0`.
pub fn unchanged(
    table: &AcceptedTable<'_>,
    out_rows: &mut [u8],
    out_bindings: &mut [u8],
) -> Result<Converted, Refusal>
    requires { Unchanged (switches_of table.now.switches) table.now.rows.now table.now.names.pairs.now table.now.names.text.now }
    ensures { Gives (switches_of table.now.switches) table.now.rows.now table.now.names.pairs.now table.now.names.text.now result
        out_rows.old out_rows.new out_bindings.old out_bindings.new }
{
    let rows = table.rows;
    if out_rows.len() / 16 < rows.len() / 16 {
        return Err(Refusal::NoRoom);
    }
    let mut w = Writer::new(out_rows, 0);
    w.copy(rows);
    Ok(Converted {
        rows: w.finish(),
        bindings: 0,
    })
}

// The rows of the second walk and the records of the bindings, where there is room for both.
fn write_walked(
    walk: &Walk<'_, '_>,
    out_rows: &mut [u8],
    out_bindings: &mut [u8],
) -> Result<Converted, Refusal>
    requires { CollectedOf walk.now }
    ensures { Gives (switches_of walk.now.switches) walk.now.rows.now walk.now.names.pairs.now walk.now.names.text.now result
        out_rows.old out_rows.new out_bindings.old out_bindings.new }
{
    if !has_room(walk, out_rows.len() / 16) {
        return Err(Refusal::NoRoom);
    }
    if out_bindings.len() / 12 < walk.bindings.count {
        return Err(Refusal::NoRoom);
    }
    let written = emit(walk, out_rows);
    let recorded = write_records(walk.bindings, out_bindings);
    Ok(Converted {
        rows: written,
        bindings: recorded,
    })
}

// The bindings, and where there is room for them and for the rows, the rows and the records. Where no rule
// said yes anywhere, the rows are the table's and need no walk.
pub fn write_result(
    table: &AcceptedTable<'_>,
    made: &mut [u32],
    cap: usize,
    out_rows: &mut [u8],
    out_bindings: &mut [u8],
) -> Result<Converted, Refusal>
    requires { Ready (switches_of table.now.switches) table.now.rows.now table.now.names.pairs.now table.now.names.text.now made.old cap }
    ensures { Gives (switches_of table.now.switches) table.now.rows.now table.now.names.pairs.now table.now.names.text.now result
        out_rows.old out_rows.new out_bindings.old out_bindings.new }
{
    let count = make_bindings(table.rows, &table.names, table.switches, made, cap);
    if count == 0 && keeps_arrows(table) {
        return unchanged(table, out_rows, out_bindings);
    }
    let bindings = Bindings { made, cap, count };
    let walk = Walk {
        switches: table.switches,
        rows: table.rows,
        names: table.names,
        bindings,
    };
    write_walked(&walk, out_rows, out_bindings)
}
