// The text of a binding whose record is sound. Refusals 10 and 9.
ghost use Rattle.std.specs.Prelude.{◌≡◌, true, ◌<◌, ◌≤◌, length};
ghost use Rattle.uses.specs.Uses.{use_number};
ghost use Rattle.base_text.specs.Bases.{base_of, with_property, text_for, property_ok};
ghost use Rattle.base_text.specs.Refusals.{named_answer, answer_for, Told};

use crate::Refusal;
use crate::bases::base_of;
use crate::bindings::Binding;
use crate::head::head_of;
use crate::write::write;
use names::words::pair_at;

// A base, and a property with its first character upper-cased.
fn spell_property(number: u32, base: &[u8], s: &[u8], out: &mut [u8]) -> Result<u32, Refusal>
    requires { (length base.now ≤ 13) × (0 < length s.now) × (length s.now ≤ 255) }
    ensures { Told result (named_answer number base.now s.now (length out.old)) (with_property base.now s.now) out.old out.new }
{
    let head = head_of(s).ok_or(Refusal::UnknownLetter { binding: number })?;
    write(base, head.capital.bytes(), &s[head.width..], out)
}

// The text of binding `number`.
pub fn spell(
    number: u32,
    binding: Binding,
    names: &[u8],
    text: &[u8],
    out: &mut [u8],
) -> Result<u32, Refusal>
    requires { (length names.now ≤ 32768) × (property_ok names.now text.now binding.property ≡ true) }
    ensures { Told result (answer_for number (base_of (use_number binding.usage)) names.now text.now binding.property (length out.old))
        (text_for (base_of (use_number binding.usage)) names.now text.now binding.property) out.old out.new }
{
    let base = base_of(binding.usage);
    // An access with no property gives the bare base.
    let Some(k) = binding.property else {
        return write(base, b"", b"", out);
    };
    let (start, n) = pair_at(names, k);
    spell_property(number, base, &text[start..start + n], out)
}
