// The made names of bindings.
//
//     () => this          var _this = this; (function () { return _this; });
//
// A made name is an underscore and the base text, here `_this`; where a script has that name already, it is `_this2`, or the
// first number from there on that no name has.

#![tactic(auto)]

ghost use Rattle.std.specs.Prelude.{◌≡◌, ◌+◌, ◌≤◌, ◌<◌, ◌^◌, length, Ok};
ghost use Rattle.names.specs.Words.{names_in};
ghost use Rattle.base_text.specs.Refusals.{front_of, fault_of, base_text};
ghost use Rattle.decimal.specs.Decimal.{Wrote};
ghost use Rattle.candidates.specs.Candidates.{candidate};
ghost use Rattle.candidates.specs.Faults.{first_fault, Sound};

use base_text::{Refusal, Script};
use decimal::{put_byte, put_bytes, put_number};
use spelling::Names;

const UNDERSCORE: u8 = 0x5F;

// A script that 1, 4, 11 and 10 leave.
#[derive(Clone, Copy)]
pub struct Checked<'a> {
    pub script: Script<'a>,
    pub ghost sound: { Sound script.bindings.now script.names.now script.text.now },
}

impl<'a> Checked<'a> {
    // The names of its table,
    pub fn names(self) -> Names<'a>
        ensures { (result.pairs.now ≡ self.entry.script.names.now) × (result.text.now ≡ self.entry.script.text.now) }
    {
        Names {
            pairs: self.script.names,
            text: self.script.text,
        }
    }

    // and how many there are.
    pub fn named(self) -> usize
        ensures { result ≡ names_in self.entry.script.names.now }
    {
        self.script.names.len() / 8
    }
}

// The most bytes of a base text are 270; it is written into an array of this size.
const BASE_ROOM: usize = 272;

// Writes the base text of binding b, from 1, to the front of `out`, and answers what it has written.
fn spell<'a>(b: u32, script: Script, out: &'a mut [u8]) -> &'a [u8]
    requires text_value { (front_of script.bindings.now script.names.now script.text.now ≡ Ok tt) × (fault_of b script.bindings.now script.names.now script.text.now ≡ Ok tt) }
    requires value { 272 ≡ length out.old }
    ensures { (result.now ≡ base_text b script.entry.bindings.now script.entry.names.now script.entry.text.now) × (length result.now ≤ 270) }
{
    let count = base_text::text_of(b, script, out).unwrap() as usize;
    &out[..count]
}

// Writes the made name of binding b with the number n behind it, where that is not 1, from byte `at`
// on as far as there is room, and answers where it stops. The script is no `Checked`: of 11 and 10 only binding b is asked here.
pub fn put_candidate(out: &mut [u8], at: usize, b: u32, n: u32, script: Script) -> usize
    requires text_value { (front_of script.bindings.now script.names.now script.text.now ≡ Ok tt) × (fault_of b script.bindings.now script.names.now script.text.now ≡ Ok tt) }
    requires at_bound { at < 2 ^ 59 }
    ensures { (Wrote out.old at (candidate (base_text b script.entry.bindings.now script.entry.names.now script.entry.text.now) n) result out.new) × (result ≤ at + 281) }
{
    let mut room = [0; BASE_ROOM];
    let base = spell(b, script, &mut room);
    let first = put_byte(out, at, UNDERSCORE);
    let end = put_bytes(out, first, base);
    if n < 2 {
        return end;
    }
    put_number(out, end, n)
}

// The first binding that 11 or 10 turns away, of what passed `base_text::front`. A type for what passed that would be made for this
// call alone, before the same script is made a `Checked`: no plainer.
pub fn first_fault(script: Script) -> Result<(), Refusal>
    requires { front_of script.bindings.now script.names.now script.text.now ≡ Ok tt }
    ensures { result ≡ first_fault script.entry.bindings.now script.entry.names.now script.entry.text.now }
{
    let count = base_text::records_in(script.bindings) as u32;
    let mut out = [0; BASE_ROOM];
    for b in 1..=count {
        base_text::text_of(b, script, &mut out)?;
    }
    Ok(())
}
