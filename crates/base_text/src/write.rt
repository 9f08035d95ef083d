// Writing into the bytes lent. Refusal 9.
ghost use Rattle.std.specs.Prelude.{◌+◌, ◌^◌, ◌<◌, ◌++◌, length};
ghost use Rattle.base_text.specs.Refusals.{fitted, Told};

use crate::Refusal;
use names::bytes::copy;

// Writes a base, the capitals of a first character and the rest of its text, one after the other, to the front of `out`,
// and answers how many bytes they have.
pub fn write(base: &[u8], capitals: &[u8], rest: &[u8], out: &mut [u8]) -> Result<u32, Refusal>
    requires { length base.now + length capitals.now + length rest.now < 2 ^ 32 }
    ensures { Told result (fitted (length out.old) (length (base.now ++ (capitals.now ++ rest.now)))) (base.now ++ (capitals.now ++ rest.now)) out.old out.new }
{
    let a = base.len();
    let b = a + capitals.len();
    let c = b + rest.len();
    if out.len() < c {
        return Err(Refusal::NoRoom);
    }
    copy(&mut out[..a], base);
    copy(&mut out[a..b], capitals);
    copy(&mut out[b..c], rest);
    Ok(c as u32)
}
