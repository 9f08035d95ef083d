// The spelling of an Ident: a part of the script's text (attr 0) or of the made text (attr 1).
//
//     () => this          var _this = this; (function () { return _this; });
//
// The Ident `_this` has attr 1 and number 1, and its spelling is the part of the made text that made pair 1 names.

#![tactic(auto)]

ghost use Rattle.std.specs.Prelude.{◌≡◌, ◌+◌, ◌≤◌, length, take, drop, is_some};
ghost use Rattle.lookup.specs.Parts.{spells, spelling_of, number_of, PartIn, PartOf};

use names::words::pair_at;

// A part of a text, by its start and its length and not as a slice: the C entry tells these two numbers, since an exported
// function can't hand back a slice.
#[derive(Clone, Copy)]
pub struct Part {
    pub start: usize,
    pub bytes: usize,
}

impl Part {
    // Its bytes.
    fn of(self, text: &[u8]) -> &[u8]
        requires { self.start + self.bytes ≤ length text.now }
        ensures { result.now ≡ take self.bytes (drop self.start text.now) }
    {
        &text[self.start..self.start + self.bytes]
    }
}

// The part of the text that pair `number`, from 1, names.
#[tactic(auto, unfolding(crate::specs::Parts::lies))]
fn part_in(pairs: &[u8], text: &[u8], number: usize) -> Option<Part>
    ensures { PartIn pairs.now text.now number result }
{
    if number == 0 {
        return None;
    }
    if pairs.len() / 8 < number {
        return None;
    }
    let (start, bytes) = pair_at(pairs, number);
    if text.len() < start + bytes {
        return None;
    }
    Some(Part { start, bytes })
}

// The part that an Ident of that attr and number names, if it has a spelling; which text it is a part of goes by the attr.
// Here and below the four slices stand apart, as the C entry takes them: a struct of them would be taken apart in this match.
pub fn part_of(
    attr: u32,
    number: u32,
    names: &[u8],
    text: &[u8],
    made_pairs: &[u8],
    made_text: &[u8],
) -> Option<Part>
    ensures { PartOf attr number names.now text.now made_pairs.now made_text.now result }
{
    match attr {
        0 => part_in(names, text, number as usize),
        1 => part_in(made_pairs, made_text, number as usize),
        _ => None,
    }
}

// The spelling of an Ident of that attr and number; where it has none no Option but an empty part, as the request says, which
// has the check beside it (`unspelled`) for that.
pub fn spelling<'a>(
    attr: u32,
    number: u32,
    names: &[u8],
    text: &'a [u8],
    made_pairs: &[u8],
    made_text: &'a [u8],
) -> &'a [u8]
    ensures { result.now ≡ spelling_of attr number names.now text.now made_pairs.now made_text.now }
{
    let Some(part) = part_of(attr, number, names, text, made_pairs, made_text) else {
        return &text[..0];
    };
    if attr == 0 {
        part.of(text)
    } else {
        part.of(made_text)
    }
}

// The request's number of a part that an Ident names, as the C entry tells it: 18 where there is none, else 0. The lookup has
// no other refusal: an enum of this one would be made here only to be turned into its number.
pub fn refusal(part: Option<Part>) -> u32
    ensures { result ≡ number_of (is_some part) }
{
    if part.is_some() { 0 } else { 18 }
}

// The check beside it: 18 where an Ident of that attr and number has no spelling, else 0.
pub fn unspelled(
    attr: u32,
    number: u32,
    names: &[u8],
    text: &[u8],
    made_pairs: &[u8],
    made_text: &[u8],
) -> u32
    ensures { result ≡ number_of (spells attr number names.now text.now made_pairs.now made_text.now) }
{
    refusal(part_of(attr, number, names, text, made_pairs, made_text))
}
