// The names, once their numbers are found. Refusal 9.
ghost use Rattle.std.specs.Prelude.{◌+◌, ◌*◌, ◌≤◌, ◌<◌, length};
ghost use Rattle.numbers.specs.Lent.{named, records, Blank};
ghost use Rattle.made_names.specs.Naming.{MakesAll};
ghost use Rattle.made_names.specs.Laying.{Laid};

use crate::Made;
use base_text::{Refusal, records_in};
use candidates::put_candidate;
use names::words::put_pair;
use numbers::Tables;

// Writes the name of each binding, by the number that the tables have for it behind the names of the script.
fn write_names(tables: &Tables<'_>, out_pairs: &mut [u8], out_text: &mut [u8])
    requires { (named tables.now + records tables.now < length tables.now.numbers.now) × (8 * records tables.now ≤ length out_pairs.old) }
    ensures { Laid tables.now.checked.script.bindings.now tables.now.checked.script.names.now tables.now.checked.script.text.now tables.now.numbers.now
        out_pairs.old out_pairs.new out_text.old out_text.new }
{
    let checked = tables.checked;
    let named = checked.named();
    let count = records_in(checked.script.bindings);
    let mut at: usize = 0;
    for k in 0..count {
        let b = k + 1;
        let n = tables.numbers[named + b];
        let end = put_candidate(out_text, at, b as u32, n, checked.script);
        put_pair(out_pairs, k, at as u32, (end - at) as u32);
        at = end;
    }
}

// The names of a checked script, over its tables of zeros.
pub fn name_all(
    tables: &mut Tables<'_>,
    out_pairs: &mut [u8],
    out_text: &mut [u8],
) -> Result<Made, Refusal>
    requires { Blank tables.old }
    ensures { MakesAll tables.old.checked result out_pairs.old out_pairs.new out_text.old out_text.new }
{
    let count = records_in(tables.checked.script.bindings);
    let bytes = tables.find_numbers();
    if out_pairs.len() / 8 < count {
        return Err(Refusal::NoRoom);
    }
    if out_text.len() < bytes {
        return Err(Refusal::NoRoom);
    }
    write_names(tables, out_pairs, out_text);
    Ok(Made {
        pairs: count as u32,
        bytes: bytes as u32,
    })
}
