// The record of a binding. Refusal 11.
ghost use Rattle.std.specs.Prelude.{◌*◌, ◌≤◌, length};
ghost use Rattle.base_text.specs.Bindings.{record_bytes, most_records, HoldsRecord, HoldsBinding};

use names::words::cell;
use uses::Use;

// How many words a record has: use, property, frame.
const RECORD_WORDS: usize = 3;

pub const RECORD_BYTES: usize = 4 * RECORD_WORDS;

// The most records that a list of bindings may have.
pub const MOST_RECORDS: usize = 65535;

// The last row that a frame can be.
const LAST_ROW: usize = 16383;

// A binding, and the number of its property's name, from 1, if it has a property.
#[derive(Clone, Copy)]
pub struct Binding {
    pub usage: Use,
    pub property: Option<usize>,
}

impl Binding {
    // The binding of a record with these words, if that is as it must be with so many names.
    fn new(role: usize, property: usize, frame: usize, names: usize) -> Option<Binding>
        ensures { HoldsRecord names role property frame result }
    {
        let usage = Use::try_from(role).ok()?;
        if LAST_ROW < frame {
            return None;
        }
        if property == 0 {
            return Some(Binding {
                usage,
                property: None,
            });
        }
        if names < property || !matches!(usage, Use::Get | Use::Set) {
            return None;
        }
        let property = Some(property);
        Some(Binding { usage, property })
    }

    // Binding `number`, from 1, if there is one and its record is as it must be with so many names.
    pub fn read(number: usize, bindings: &[u8], names: usize) -> Option<Binding>
        requires { length bindings.now ≤ most_records * record_bytes }
        ensures { HoldsBinding number bindings.now names result }
    {
        if number == 0 || bindings.len() / RECORD_BYTES < number {
            return None;
        }
        let at = RECORD_WORDS * (number - 1);
        Binding::new(
            cell(bindings, at),
            cell(bindings, at + 1),
            cell(bindings, at + 2),
            names,
        )
    }
}
