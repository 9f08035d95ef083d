// The first character of a text.
ghost use Rattle.std.specs.Prelude.{◌≡◌, ◌<◌, length};
ghost use Rattle.letters.specs.Characters.{code_of};
ghost use Rattle.base_text.specs.Bases.{HeadOf};

use letters::{Capital, capital_of};
use names::utf8::{byte, seq_at};

// Its width, and the bytes that stand for it.
#[derive(Clone, Copy)]
pub struct Head {
    pub width: usize,
    pub capital: Capital,
}

// The code point of a well-formed sequence of `width` bytes.
#[tactic(auto, unfolding(letters::specs::Characters::code_of))]
fn code(width: usize, a: u8, b: u8, c: u8, d: u8) -> u32
    ensures { result ≡ code_of width a b c d }
{
    match width {
        1 => a as u32,
        2 => (a as u32) % 32 * 64 + (b as u32) % 64,
        3 => (a as u32) % 16 * 4096 + (b as u32) % 64 * 64 + (c as u32) % 64,
        _ => (a as u32) % 8 * 262144
            + (b as u32) % 64 * 4096
            + (c as u32) % 64 * 64
            + (d as u32) % 64,
    }
}

// None where no bytes stand for it.
pub fn head_of(s: &[u8]) -> Option<Head>
    requires { 0 < length s.now }
    ensures { HeadOf s.now result }
{
    let width = seq_at(s, 0);
    let capital = capital_of(code(width, byte(s, 0), byte(s, 1), byte(s, 2), byte(s, 3)))?;
    Some(Head { width, capital })
}
