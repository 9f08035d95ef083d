// The maker of names: a name for each binding of a list, which no name of the table and no other binding has.
//
//     () => this          var _this = this; (function () { return _this; });
//
// Binding 1 is named `_this`; in a script that has a `_this` of its own it is named `_this2`. All names are found before
// one is written, since 9 has to leave what is lent as it was.

#![tactic(auto)]

mod sizes;
mod write;

ghost use Rattle.std.specs.Prelude.{length};
ghost use Rattle.candidates.specs.MadeNames.{made_names};
ghost use Rattle.made_names.specs.Naming.{named, Makes};

use base_text::{Refusal, Script};
use candidates::Checked;

// How many pairs and bytes the maker of names has written.
#[derive(Clone, Copy)]
pub struct Made {
    pub pairs: u32,
    pub bytes: u32,
}

// Writes the name of each binding to the front of `out_text`, and where it starts and how long it is to
// the front of `out_pairs`. An error leaves both as they were. Refusals 1, 4, 11, 10 and 9.
pub fn make_names(
    script: Script,
    out_pairs: &mut [u8],
    out_text: &mut [u8],
) -> Result<Made, Refusal>
    ensures { Makes result (named script.entry.bindings.now script.entry.names.now script.entry.text.now (length out_pairs.old) (length out_text.old))
        (made_names script.entry.bindings.now script.entry.names.now script.entry.text.now)
        out_pairs.old out_pairs.new out_text.old out_text.new }
{
    base_text::front(script)?;
    candidates::first_fault(script)?;
    sizes::over(Checked { script }, out_pairs, out_text)
}
