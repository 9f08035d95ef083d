// The entries, answered in numbers as C takes them: what crates/thawcopper_c exports, and what the replay programs
// call. Words are little-endian. Every input is answered, and a refusal leaves what was lent as it was.

#![tactic(auto)]

ghost use Rattle.std.specs.Prelude.{◌≡◌, false, ◌<◌, ◌^◌, length};
ghost use Rattle.base_text.specs.Refusals.{base_text, spelled};
ghost use Rattle.candidates.specs.MadeNames.{made_names};
ghost use Rattle.made_names.specs.Naming.{named};
ghost use Rattle.answer.specs.Converting.{Converts};
ghost use Rattle.acts.specs.View.{switches_of};
ghost use Rattle.thawcopper.specs.Entries.{TellsText, TellsNames, BaseTextAnswered, NamesAnswered, PartAnswered, switches_from, on_tablet, switches_in};

use acts::switches::Switches;
use answer::Numbers;
use base_text::{Refusal, Script};
use converter::convert;
use lookup::{part_of, refusal};
use made_names::{Made, make_names};
use steps::has_bit;

// What base text answers: the request's number and place, and how many bytes were written.
#[repr(C)]
#[derive(Clone, Copy)]
pub struct Spelled {
    pub refusal: u32,
    pub place: u32,
    pub bytes: u32,
}

impl From<Result<u32, Refusal>> for Spelled {
    ghost from_gives = { TellsText };

    fn from(answer: Result<u32, Refusal>) -> Spelled {
        match answer {
            Ok(bytes) => Spelled {
                refusal: 0,
                place: 0,
                bytes,
            },
            Err(refusal) => Spelled {
                refusal: refusal.number(),
                place: refusal.place(),
                bytes: 0,
            },
        }
    }
}

// Writes the text of binding `number`, from 1, to the front of `out`.
pub fn thawcopper_base_text(
    number: u32,
    bindings: &[u8],
    names: &[u8],
    text: &[u8],
    out: &mut [u8],
) -> Spelled
    ensures { BaseTextAnswered result
        (spelled number bindings.now names.now text.now (length out.old))
        (base_text number bindings.now names.now text.now) out.old out.new }
{
    let script = Script {
        bindings,
        names,
        text,
    };
    Spelled::from(base_text::base_text(number, script, out))
}

// What the maker of names answers: the request's number and place, and how many pairs and bytes were
// written.
#[repr(C)]
#[derive(Clone, Copy)]
pub struct Named {
    pub refusal: u32,
    pub place: u32,
    pub pairs: u32,
    pub bytes: u32,
}

// Like the conversion to `Spelled`, into a struct of its own: so C has them.
impl From<Result<Made, Refusal>> for Named {
    ghost from_gives = { TellsNames };

    fn from(answer: Result<Made, Refusal>) -> Named {
        match answer {
            Ok(made) => Named {
                refusal: 0,
                place: 0,
                pairs: made.pairs,
                bytes: made.bytes,
            },
            Err(refusal) => Named {
                refusal: refusal.number(),
                place: refusal.place(),
                pairs: 0,
                bytes: 0,
            },
        }
    }
}

// Writes the name of each binding: its bytes to the front of `out_text`, where it starts and how long it
// is to the front of `out_pairs`.
pub fn thawcopper_make_names(
    bindings: &[u8],
    names: &[u8],
    text: &[u8],
    out_pairs: &mut [u8],
    out_text: &mut [u8],
) -> Named
    ensures { NamesAnswered result
        (named bindings.now names.now text.now (length out_pairs.old) (length out_text.old))
        (made_names bindings.now names.now text.now)
        out_pairs.old out_pairs.new out_text.old out_text.new }
{
    let script = Script {
        bindings,
        names,
        text,
    };
    Named::from(make_names(script, out_pairs, out_text))
}

// What the spelling of an Ident answers: 18 or 0, and where its part starts and how long it is.
#[repr(C)]
#[derive(Clone, Copy)]
pub struct Part {
    pub refusal: u32,
    pub start: u32,
    pub bytes: u32,
}

// The spelling of an Ident of that attr and number, as a part of `text` (attr 0) or of `made_text`
// (attr 1). An exported function can't hand back a part itself, so where it starts and how long it is are told.
pub fn thawcopper_spelling(
    attr: u32,
    number: u32,
    names: &[u8],
    text: &[u8],
    made_pairs: &[u8],
    made_text: &[u8],
) -> Part
    ensures { PartAnswered attr number names.now text.now made_pairs.now made_text.now result.refusal result.start result.bytes }
{
    let found = part_of(attr, number, names, text, made_pairs, made_text);
    let refusal = refusal(found);
    let Some(part) = found else {
        return Part {
            refusal,
            start: 0,
            bytes: 0,
        };
    };
    Part {
        refusal,
        start: part.start as u32,
        bytes: part.bytes as u32,
    }
}

// What convert answers: the request's number and place, and how many rows and bindings were written.
#[repr(C)]
#[derive(Clone, Copy)]
pub struct Answer {
    pub refusal: u32,
    pub place: u32,
    pub rows: u32,
    pub bindings: u32,
}

// The numbers of an answer, where they fit 32 bits. No `From` of these numbers: its `from` can't ask that they fit.
fn answer_of(numbers: Numbers) -> Answer
    requires { (numbers.place < 2 ^ 32) × ((numbers.rows < 2 ^ 32) × (numbers.bindings < 2 ^ 32)) }
    ensures { (result.refusal ≡ numbers.number) × (result.place ≡ numbers.place) × (result.rows ≡ numbers.rows) × (result.bindings ≡ numbers.bindings) }
{
    Answer {
        refusal: numbers.number,
        place: numbers.place as u32,
        rows: numbers.rows as u32,
        bindings: numbers.bindings as u32,
    }
}

// A table of either caller converted, and the numbers of the answer.
fn convert_as(
    tablet: bool,
    switches: Switches,
    rows: &[u8],
    names: &[u8],
    text: &[u8],
    out_rows: &mut [u8],
    out_bindings: &mut [u8],
) -> Answer
    ensures { Converts tablet (switches_of switches) rows.now names.now text.now
        result.refusal result.place result.rows result.bindings out_rows.old out_rows.new out_bindings.old out_bindings.new }
{
    let converted = convert(tablet, switches, rows, names, text, out_rows, out_bindings);
    answer_of(Numbers::from(converted))
}

// Converts a table of the print room: the rows of the result go to the front of `out_rows`, the records
// of its bindings to the front of `out_bindings`. A switch is on where it is not 0.
pub fn thawcopper_convert(
    arrow: u32,
    async_to_generator: u32,
    async_generator_functions: u32,
    rows: &[u8],
    names: &[u8],
    text: &[u8],
    out_rows: &mut [u8],
    out_bindings: &mut [u8],
) -> Answer
    ensures { Converts false (switches_from arrow async_to_generator async_generator_functions) rows.now names.now text.now
        result.refusal result.place result.rows result.bindings out_rows.old out_rows.new out_bindings.old out_bindings.new }
{
    let switches = Switches {
        arrow_function: arrow != 0,
        async_to_generator: async_to_generator != 0,
        async_generator_functions: async_generator_functions != 0,
    };
    convert_as(false, switches, rows, names, text, out_rows, out_bindings)
}

// The same for either caller, by the bits of `options`: 1 arrow, 2 async-to-generator, 4 async
// generators, 8 tablet. A bit without a name is not looked at.
pub fn thawcopper_convert_with(
    options: u32,
    rows: &[u8],
    names: &[u8],
    text: &[u8],
    out_rows: &mut [u8],
    out_bindings: &mut [u8],
) -> Answer
    ensures { Converts (on_tablet options) (switches_in options) rows.now names.now text.now
        result.refusal result.place result.rows result.bindings out_rows.old out_rows.new out_bindings.old out_bindings.new }
{
    let bits = options as usize;
    let switches = Switches {
        arrow_function: has_bit(1, bits),
        async_to_generator: has_bit(2, bits),
        async_generator_functions: has_bit(4, bits),
    };
    let tablet = has_bit(8, bits);
    convert_as(tablet, switches, rows, names, text, out_rows, out_bindings)
}
