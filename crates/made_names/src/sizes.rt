// The tables of the maker of names, as large as the names and bindings need.
ghost use Rattle.std.specs.Prelude.{◌+◌, ◌≤◌, ◌<◌};
ghost use Rattle.names.specs.Words.{names_in};
ghost use Rattle.base_text.specs.Bindings.{records_in};
ghost use Rattle.made_names.specs.Naming.{MakesAll};

use crate::Made;
use crate::write::name_all;
use base_text::{Refusal, records_in};
use candidates::Checked;
use numbers::Tables;

// Fewer than N names and bindings, in L buckets. Not inlined, so that the tables of each size stay in a frame of their own: joined,
// every call would touch the largest.
#[inline(never)]
fn below<const L: usize, const N: usize>(
    checked: Checked,
    out_pairs: &mut [u8],
    out_text: &mut [u8],
) -> Result<Made, Refusal>
    requires sizes { (0 < L) × (L ≤ 69632) × (N ≤ 69632) }
    requires bindings_bound { names_in checked.script.names.now + records_in checked.script.bindings.now < N }
    ensures { MakesAll checked.entry result out_pairs.old out_pairs.new out_text.old out_text.new }
{
    let mut lasts = [0u32; L];
    let mut befores = [0u32; N];
    let mut reached = [0u32; N];
    let mut numbers = [0u32; N];
    let mut tables = Tables {
        lasts: &mut lasts,
        befores: &mut befores,
        reached: &mut reached,
        numbers: &mut numbers,
        checked,
    };
    name_all(&mut tables, out_pairs, out_text)
}

// The same over the least of these tables that have room.
pub fn over(checked: Checked, out_pairs: &mut [u8], out_text: &mut [u8]) -> Result<Made, Refusal>
    ensures { MakesAll checked.entry result out_pairs.old out_pairs.new out_text.old out_text.new }
{
    match checked.named() + records_in(checked.script.bindings) {
        ..256 => below::<256, 256>(checked, out_pairs, out_text),
        ..2304 => below::<2304, 2304>(checked, out_pairs, out_text),
        // Every list that convert makes.
        ..20736 => below::<20736, 20736>(checked, out_pairs, out_text),
        // As many as there may be, with fewer buckets, so that the stack stays below 1 MiB.
        _ => below::<16384, 69632>(checked, out_pairs, out_text),
    }
}
