// The C boundary: what a host links against. Each export is the entry of that name in crates/thawcopper, with its
// clauses. A slice is a pointer and a length, words are little-endian. Every input is answered, and a refusal leaves what
// was lent as it was.

#![tactic(auto)]

ghost use Rattle.std.specs.Prelude.{false, length};
ghost use Rattle.base_text.specs.Refusals.{base_text, spelled};
ghost use Rattle.candidates.specs.MadeNames.{made_names};
ghost use Rattle.made_names.specs.Naming.{named};
ghost use Rattle.answer.specs.Converting.{Converts};
ghost use Rattle.thawcopper.specs.Entries.{BaseTextAnswered, NamesAnswered, PartAnswered, switches_from, on_tablet, switches_in};

use thawcopper::{Answer, Named, Part, Spelled};

// Writes the text of binding `number`, from 1, to the front of `out`.
#[unsafe(no_mangle)]
pub extern "C" fn thawcopper_base_text(
    number: u32,
    bindings: &[u8],
    names: &[u8],
    text: &[u8],
    out: &mut [u8],
) -> Spelled
    ensures { BaseTextAnswered result
        (spelled number bindings.now names.now text.now (length out.old))
        (base_text number bindings.now names.now text.now) out.old out.new }
{
    thawcopper::thawcopper_base_text(number, bindings, names, text, out)
}

// Writes the name of each binding: its bytes to the front of `out_text`, where it starts and how long it
// is to the front of `out_pairs`.
#[unsafe(no_mangle)]
pub extern "C" fn thawcopper_make_names(
    bindings: &[u8],
    names: &[u8],
    text: &[u8],
    out_pairs: &mut [u8],
    out_text: &mut [u8],
) -> Named
    ensures { NamesAnswered result
        (named bindings.now names.now text.now (length out_pairs.old) (length out_text.old))
        (made_names bindings.now names.now text.now)
        out_pairs.old out_pairs.new out_text.old out_text.new }
{
    thawcopper::thawcopper_make_names(bindings, names, text, out_pairs, out_text)
}

// The spelling of an Ident of that attr and number, as a part of `text` (attr 0) or of `made_text`
// (attr 1). An export can't hand back a part itself, so where it starts and how long it is are told.
#[unsafe(no_mangle)]
pub extern "C" fn thawcopper_spelling(
    attr: u32,
    number: u32,
    names: &[u8],
    text: &[u8],
    made_pairs: &[u8],
    made_text: &[u8],
) -> Part
    ensures { PartAnswered attr number names.now text.now made_pairs.now made_text.now result.refusal result.start result.bytes }
{
    thawcopper::thawcopper_spelling(attr, number, names, text, made_pairs, made_text)
}

// Converts a table of the print room: the rows of the result go to the front of `out_rows`, the records
// of its bindings to the front of `out_bindings`. A switch is on where it is not 0.
#[unsafe(no_mangle)]
pub extern "C" fn thawcopper_convert(
    arrow: u32,
    async_to_generator: u32,
    async_generator_functions: u32,
    rows: &[u8],
    names: &[u8],
    text: &[u8],
    out_rows: &mut [u8],
    out_bindings: &mut [u8],
) -> Answer
    ensures { Converts false (switches_from arrow async_to_generator async_generator_functions) rows.now names.now text.now
        result.refusal result.place result.rows result.bindings out_rows.old out_rows.new out_bindings.old out_bindings.new }
{
    thawcopper::thawcopper_convert(
        arrow,
        async_to_generator,
        async_generator_functions,
        rows,
        names,
        text,
        out_rows,
        out_bindings,
    )
}

// The same for either caller, by the bits of `options`: 1 arrow, 2 async-to-generator, 4 async
// generators, 8 tablet. A bit without a name is not looked at.
#[unsafe(no_mangle)]
pub extern "C" fn thawcopper_convert_with(
    options: u32,
    rows: &[u8],
    names: &[u8],
    text: &[u8],
    out_rows: &mut [u8],
    out_bindings: &mut [u8],
) -> Answer
    ensures { Converts (on_tablet options) (switches_in options) rows.now names.now text.now
        result.refusal result.place result.rows result.bindings out_rows.old out_rows.new out_bindings.old out_bindings.new }
{
    thawcopper::thawcopper_convert_with(options, rows, names, text, out_rows, out_bindings)
}
