// The converter's entry: every refusal in the request's order, and the result.

#![tactic(auto)]

mod result;

ghost use Rattle.acts.specs.View.{switches_of};
ghost use Rattle.answer.specs.Answer as answers;
ghost use Rattle.answer.specs.Converting.{Converts};

use acts::switches::Switches;
use answer::{Converted, Refusal};
use refusals::refusal;
use result::result;
use rows::{check, limits_for};
use spelling::Names;
use walks::AcceptedTable;

// Converts a table of either caller: the rows of the result go to the front of `out_rows`, the records
// of its bindings to the front of `out_bindings`. Every input is answered. A refusal leaves both as they
// were. The limits are on what is lent, and only `check` knows them.
pub fn convert(
    tablet: bool,
    switches: Switches,
    rows: &[u8],
    names: &[u8],
    text: &[u8],
    out_rows: &mut [u8],
    out_bindings: &mut [u8],
) -> Result<Converted, Refusal>
    ensures { Converts tablet (switches_of switches) rows.now names.now text.now (answers.number_of result) (answers.place_of result) (answers.rows_of result) (answers.bindings_of result)
        out_rows.old out_rows.new out_bindings.old out_bindings.new }
{
    let limits = limits_for(tablet);
    check(rows, names, text, limits)?;
    let names = Names { pairs: names, text };
    refusal(rows, &names, switches.converter())?;
    let table = AcceptedTable {
        switches,
        rows,
        names,
    };
    result(&table, out_rows, out_bindings)
}
