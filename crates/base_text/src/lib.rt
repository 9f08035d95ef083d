// Base text: the spelled base of a made binding. Refusals 1, 4, 11, 10 and 9, in that order. A maker of
// names has it in two parts: what is the same for all bindings, and the text of one.

#![tactic(auto)]

mod bases;
mod bindings;
mod head;
mod spell;
mod write;

ghost use Rattle.std.specs.Prelude.{◌≡◌, Ok, length};
ghost use Rattle.base_text.specs.Bindings.{records_in};
ghost use Rattle.base_text.specs.Refusals.{number_of, place_of, sizes_ok, front_of, base_text, text_answer, spelled, Told};

use bindings::{Binding, MOST_RECORDS, RECORD_BYTES};

// A list of bindings over a table of names: the records, the pairs of the names, and the text that these are parts of.
#[derive(Clone, Copy)]
pub struct Script<'a> {
    pub bindings: &'a [u8],
    pub names: &'a [u8],
    pub text: &'a [u8],
}

// The refusals of base text, which the maker of names shares.
#[derive(Clone, Copy)]
pub enum Refusal {
    Malformed,
    BadName { name: u32 },
    BadBinding { binding: u32 },
    UnknownLetter { binding: u32 },
    NoRoom,
}

impl Refusal {
    // The request's number of the refusal.
    pub fn number(self) -> u32
        ensures { result ≡ number_of self }
    {
        match self {
            Refusal::Malformed => 1,
            Refusal::BadName { name: _ } => 4,
            Refusal::BadBinding { binding: _ } => 11,
            Refusal::UnknownLetter { binding: _ } => 10,
            Refusal::NoRoom => 9,
        }
    }

    // Its place: the number of a name or of a binding, from 1, or 0.
    pub fn place(self) -> u32
        ensures { result ≡ place_of self }
    {
        match self {
            Refusal::Malformed | Refusal::NoRoom => 0,
            Refusal::BadName { name } => name,
            Refusal::BadBinding { binding } | Refusal::UnknownLetter { binding } => binding,
        }
    }
}

// How many records a list of bindings has.
pub fn records_in(bindings: &[u8]) -> usize
    ensures { result ≡ records_in bindings.now }
{
    bindings.len() / RECORD_BYTES
}

fn sizes_ok(bindings: usize, names: usize, text: usize) -> bool
    ensures { result ≡ sizes_ok bindings names text }
{
    let named = names::names_fit(names, text);
    (bindings % RECORD_BYTES == 0) & (bindings <= MOST_RECORDS * RECORD_BYTES) & named
}

// What is tested once for all bindings. Refusals 1 and 4.
pub fn front(script: Script) -> Result<(), Refusal>
    ensures { result ≡ front_of script.entry.bindings.now script.entry.names.now script.entry.text.now }
{
    if !sizes_ok(script.bindings.len(), script.names.len(), script.text.len()) {
        return Err(Refusal::Malformed);
    }
    if let Some(name) = names::first_bad_name(script.names, script.text) {
        return Err(Refusal::BadName { name: name as u32 });
    }
    Ok(())
}

// Writes the text of binding `number`, from 1, to the front of `out`, of what passed `front`, and answers how many bytes it
// has. An error leaves `out` as it was. Refusals 11, 10 and 9.
pub fn text_of(number: u32, script: Script, out: &mut [u8]) -> Result<u32, Refusal>
    requires { front_of script.bindings.now script.names.now script.text.now ≡ Ok tt }
    ensures { Told result (text_answer number script.entry.bindings.now script.entry.names.now script.entry.text.now (length out.old))
        (base_text number script.entry.bindings.now script.entry.names.now script.entry.text.now) out.old out.new }
{
    let binding = Binding::read(number as usize, script.bindings, script.names.len() / 8).ok_or(
        Refusal::BadBinding { binding: number },
    )?;
    spell::spell(number, binding, script.names, script.text, out)
}

// Writes the text of binding `number`, from 1, to the front of `out`, and answers how many bytes it has. An error leaves
// `out` as it was.
pub fn base_text(number: u32, script: Script, out: &mut [u8]) -> Result<u32, Refusal>
    ensures { Told result (spelled number script.entry.bindings.now script.entry.names.now script.entry.text.now (length out.old))
        (base_text number script.entry.bindings.now script.entry.names.now script.entry.text.now) out.old out.new }
{
    front(script)?;
    text_of(number, script, out)
}
