// Refusal 3: depth.
ghost use Rattle.std.specs.Prelude.{◌≡◌, ◌≤◌};
ghost use Rattle.names.specs.Words.{words};
ghost use Rattle.forest.specs.Told.{Fresh, Within, first_deep};

use crate::RowBytes;
use crate::told::tell;
use names::words::end_at;

// The first row whose depth is over `most`, in a table whose rows end within it. The array has
// room for a depth a row and is all 0.
fn deep_in(rows: &RowBytes<'_>, most: u16, depth: &mut [u16]) -> Option<usize>
    requires ends { Within (words rows.now.bytes.now) rows.now.count }
    requires fresh { Fresh depth.old rows.now.count }
    ensures { result ≡ first_deep (words rows.now.bytes.now) most rows.now.count }
{
    let bytes = rows.bytes;
    let n = rows.count;
    // No `find`: its test would have to tell the row's children too, and so change what is asked of the rows behind it: no plainer.
    for i in 0..n {
        let e = end_at(bytes, i);
        let d = depth[i];
        if most < d {
            return Some(i);
        }
        let below = d + 1;
        tell(bytes, depth, below, below, i + 1, e);
    }
    None
}

// The same of a table of at most N rows.
fn deep_of<const N: usize>(rows: &RowBytes<'_>, most: u16) -> Option<usize>
    requires size { (N ≤ 16384) × (rows.now.count ≤ N) }
    requires ends { Within (words rows.now.bytes.now) rows.now.count }
    ensures { result ≡ first_deep (words rows.now.bytes.now) most rows.now.count }
{
    let mut depth = [0u16; N];
    deep_in(rows, most, &mut depth)
}

// The first row whose depth is over `most`, in a table whose rows end within it, with an array
// that is as large as the table needs.
pub fn first_deep(rows: &RowBytes<'_>, most: u16) -> Option<usize>
    requires { Within (words rows.now.bytes.now) rows.now.count }
    ensures { result ≡ first_deep (words rows.now.bytes.now) most rows.now.count }
{
    match rows.count {
        0..=64 => deep_of::<64>(rows, most),
        65..=1024 => deep_of::<1024>(rows, most),
        _ => deep_of::<16384>(rows, most),
    }
}
