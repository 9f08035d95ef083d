// Where a text need not be read to its end.
ghost use Rattle.std.specs.Prelude.{◌≡◌};
ghost use Rattle.form.specs.Form.{settled};

use crate::KEPT;

// Whether no later byte can change what is told, where the line is to be the part of that number and so many of its bytes are kept:
// it is faulty already, or too long for any but a name (`settled-stays`).
pub fn is_settled(part: usize, count: usize) -> bool
    ensures { result ≡ settled part count }
{
    match part {
        0 => true,
        4 => false,
        _ => KEPT <= count,
    }
}
