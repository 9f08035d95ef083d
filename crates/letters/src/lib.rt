// Letter case: the capitals of a first character.

#![tactic(auto)]

ghost use Rattle.std.specs.Prelude.{◌≡◌, ◌<◌, ◌≤◌};
ghost use Rattle.letters.specs.Letters.{flipped, entry_bytes, entry_for, cyrillic_capital, bytes_of, Capitals};

// The bytes that stand for a first character.
#[derive(Clone, Copy)]
pub enum Capital {
    One([u8; 1]),
    Two([u8; 2]),
}

impl Capital {
    pub fn bytes(&self) -> &[u8]
        ensures { result.now ≡ bytes_of self.now }
    {
        match self {
            Capital::One(bytes) => bytes,
            Capital::Two(bytes) => bytes,
        }
    }
}

// The bytes of each entry's capitals, the first in the high half: U+0080 to U+00FF.
const CAPITALS: [u16; 128] = [
    0xC280, 0xC281, 0xC282, 0xC283, 0xC284, 0xC285, 0xC286, 0xC287, 0xC288, 0xC289, 0xC28A, 0xC28B,
    0xC28C, 0xC28D, 0xC28E, 0xC28F, 0xC290, 0xC291, 0xC292, 0xC293, 0xC294, 0xC295, 0xC296, 0xC297,
    0xC298, 0xC299, 0xC29A, 0xC29B, 0xC29C, 0xC29D, 0xC29E, 0xC29F, 0xC2A0, 0xC2A1, 0xC2A2, 0xC2A3,
    0xC2A4, 0xC2A5, 0xC2A6, 0xC2A7, 0xC2A8, 0xC2A9, 0xC2AA, 0xC2AB, 0xC2AC, 0xC2AD, 0xC2AE, 0xC2AF,
    0xC2B0, 0xC2B1, 0xC2B2, 0xC2B3, 0xC2B4, 0xCE9C, 0xC2B6, 0xC2B7, 0xC2B8, 0xC2B9, 0xC2BA, 0xC2BB,
    0xC2BC, 0xC2BD, 0xC2BE, 0xC2BF, 0xC380, 0xC381, 0xC382, 0xC383, 0xC384, 0xC385, 0xC386, 0xC387,
    0xC388, 0xC389, 0xC38A, 0xC38B, 0xC38C, 0xC38D, 0xC38E, 0xC38F, 0xC390, 0xC391, 0xC392, 0xC393,
    0xC394, 0xC395, 0xC396, 0xC397, 0xC398, 0xC399, 0xC39A, 0xC39B, 0xC39C, 0xC39D, 0xC39E, 0x5353,
    0xC380, 0xC381, 0xC382, 0xC383, 0xC384, 0xC385, 0xC386, 0xC387, 0xC388, 0xC389, 0xC38A, 0xC38B,
    0xC38C, 0xC38D, 0xC38E, 0xC38F, 0xC390, 0xC391, 0xC392, 0xC393, 0xC394, 0xC395, 0xC396, 0xC3B7,
    0xC398, 0xC399, 0xC39A, 0xC39B, 0xC39C, 0xC39D, 0xC39E, 0xC5B8,
];

// ASCII, the crate's short way.
fn flip(b: u8) -> u8
    ensures { result ≡ flipped b }
{
    if 0x61 <= b {
        return b ^ 0x20;
    }
    b
}

fn entry(k: usize) -> u16
    requires { k < 128 }
    ensures { entry_bytes result ≡ entry_for k }
{
    CAPITALS[k]
}

// The capital of a Cyrillic character, U+0400 to U+045F, by arithmetic: no table of the code has it.
fn cyrillic_capital(code: u32) -> u32
    requires { (0x400 ≤ code) × (code ≤ 0x45F) }
    ensures { (result ≡ cyrillic_capital code) × (0x400 ≤ result) × (result ≤ 0x42F) }
{
    if code < 0x430 {
        return code;
    }
    if code < 0x450 {
        return code - 0x20;
    }
    code - 0x50
}

// The capitals of a code point; none if it is not known.
pub fn capital_of(code: u32) -> Option<Capital>
    ensures { Capitals code result }
{
    match code {
        ..=0x7F => Some(Capital::One([flip(code as u8)])),
        0x80..=0xFF => Some(Capital::Two(entry((code - 0x80) as usize).to_be_bytes())),
        0x400..=0x45F => {
            let c = cyrillic_capital(code);
            Some(Capital::Two([(0xC0 + c / 64) as u8, (0x80 + c % 64) as u8]))
        }
        _ => None,
    }
}
