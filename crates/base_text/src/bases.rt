// The bases.
ghost use Rattle.std.specs.Prelude.{◌≡◌};
ghost use Rattle.uses.specs.Uses.{use_number};
ghost use Rattle.base_text.specs.Bases.{base_of};

use uses::Use;

// The base of a binding, by its use.
#[tactic(auto, unfolding(crate::specs::Bases::base_of, names::specs::Names::arguments_bytes))]
pub fn base_of(usage: Use) -> &'static [u8]
    ensures { result.now ≡ base_of (use_number usage) }
{
    match usage {
        Use::This => b"this",
        Use::Arguments => b"arguments",
        Use::Get => b"superprop_get",
        Use::Set => b"superprop_set",
        Use::Prop => b"prop",
        Use::Value => b"value",
    }
}
