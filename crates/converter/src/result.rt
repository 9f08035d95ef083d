// The result of an accepted table, over an array that is as large as the table needs.
ghost use Rattle.std.specs.Prelude.{◌≡◌, true, ◌||◌, ◌*◌, ◌≤◌, ◌<◌};
ghost use Rattle.names.specs.Words.{rows_in};
ghost use Rattle.steps.specs.Mode.{enabled, async_only};
ghost use Rattle.acts.specs.View.{switches_of};
ghost use Rattle.walks.specs.Ready.{Gives};

use answer::{Converted, Refusal};
use bindings::TABLES;
use walks::{AcceptedTable, unchanged, write_result};

// The words of the array for tables of at most so many rows. Each is a constant: Rattle has no computed const argument.
const FOR_64: usize = TABLES * 64;

const FOR_256: usize = TABLES * 256;

const FOR_1024: usize = TABLES * 1024;

const FOR_4096: usize = TABLES * 4096;

const FOR_16384: usize = TABLES * 16384;

// A table of at most N rows, over an array of its own, of M words. Not inlined, so that the array of each size stays in a frame of
// its own: joined, every table would touch the largest.
#[inline(never)]
fn up_to<const N: usize, const M: usize>(
    table: &AcceptedTable<'_>,
    out_rows: &mut [u8],
    out_bindings: &mut [u8],
) -> Result<Converted, Refusal>
    requires sizes { (M ≡ TABLES * N) × ((0 < N) × (N ≤ 16384)) }
    requires switches_value { ((enabled (switches_of table.now.switches) || async_only (switches_of table.now.switches)) ≡ true) × (rows_in table.now.rows.now ≤ N) }
    ensures { Gives (switches_of table.now.switches) table.now.rows.now table.now.names.pairs.now table.now.names.text.now result
        out_rows.old out_rows.new out_bindings.old out_bindings.new }
{
    let mut made = [0u32; M];
    write_result(table, &mut made, N, out_rows, out_bindings)
}

// The same over the least of these arrays that has room.
fn over(
    table: &AcceptedTable<'_>,
    out_rows: &mut [u8],
    out_bindings: &mut [u8],
) -> Result<Converted, Refusal>
    requires { ((enabled (switches_of table.now.switches) || async_only (switches_of table.now.switches)) ≡ true) × (rows_in table.now.rows.now ≤ 16384) }
    ensures { Gives (switches_of table.now.switches) table.now.rows.now table.now.names.pairs.now table.now.names.text.now result
        out_rows.old out_rows.new out_bindings.old out_bindings.new }
{
    match table.rows.len() / 16 {
        ..=64 => up_to::<64, FOR_64>(table, out_rows, out_bindings),
        ..=256 => up_to::<256, FOR_256>(table, out_rows, out_bindings),
        ..=1024 => up_to::<1024, FOR_1024>(table, out_rows, out_bindings),
        ..=4096 => up_to::<4096, FOR_4096>(table, out_rows, out_bindings),
        _ => up_to::<16384, FOR_16384>(table, out_rows, out_bindings),
    }
}

// The result of a table that refusals 1, 3 to 8 and 21 to 25 leave: the rows as they are where the
// mode is Disabled, else by the two walks.
pub fn result(
    table: &AcceptedTable<'_>,
    out_rows: &mut [u8],
    out_bindings: &mut [u8],
) -> Result<Converted, Refusal>
    ensures { Gives (switches_of table.now.switches) table.now.rows.now table.now.names.pairs.now table.now.names.text.now result
        out_rows.old out_rows.new out_bindings.old out_bindings.new }
{
    let enabled = table.switches.is_enabled();
    let only = table.switches.is_async_only();
    if !(enabled | only) {
        return unchanged(table, out_rows, out_bindings);
    }
    over(table, out_rows, out_bindings)
}
