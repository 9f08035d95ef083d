// Refusals 6, 7 and 8 of a table that `rows::check` accepts.

#![tactic(auto)]

pub mod firsts;
mod standing;

ghost use Rattle.std.specs.Prelude.{◌≡◌, ◌≤◌};
ghost use Rattle.names.specs.Words.{words, rows_in};
ghost use Rattle.forest.specs.Forest.{rows_at, table};
ghost use Rattle.steps.specs.Mode.{Switches, mode_of};
ghost use Rattle.steps.specs.Outcome.{names_of};
ghost use Rattle.refusals.specs.Given.{GivenRows};
ghost use Rattle.refusals.specs.Refused.{number_of, place_for, turned_away};

use firsts::{Table, field_over, first_arguments, super_over};
use spelling::Names;
use steps::ArrowFunctionConverter;

// A refusal of a table that is sound.
#[derive(Clone, Copy)]
pub enum Refused {
    SuperNotAllowed { row: usize },
    FieldHolds { row: usize },
    NamedArguments { row: usize },
}

impl Refused {
    // The request's number of the refusal.
    pub fn number(self) -> u32
        ensures { result ≡ number_of self }
    {
        match self {
            Refused::SuperNotAllowed { .. } => 6,
            Refused::FieldHolds { .. } => 7,
            Refused::NamedArguments { .. } => 8,
        }
    }

    // Its place: a row.
    pub fn place(self) -> usize
        ensures { result ≡ place_for self }
    {
        match self {
            Refused::SuperNotAllowed { row } => row,
            Refused::FieldHolds { row } => row,
            Refused::NamedArguments { row } => row,
        }
    }
}

// Refusals 6, 7 and 8 of a table of at most N rows, with one array for the first two.
fn refusal_over<const N: usize>(
    table: &Table<'_>,
    names: &Names<'_>,
    converter: ArrowFunctionConverter,
) -> Result<(), Refused>
    requires { (table.now.count ≤ N) × (N ≤ 16384) }
    ensures { (w : Switches) → converter.mode ≡ mode_of w → result ≡ turned_away (names_of names.now.pairs.now names.now.text.now) w (rows_at (words table.now.rows.now) 0 table.now.count) }
{
    if converter.is_disabled() {
        return Ok(());
    }
    let mut entries = [0u16; N];
    let only = converter.is_async_only();
    if let Some(row) = super_over(table, &mut entries) {
        return Err(Refused::SuperNotAllowed { row });
    }
    if let Some(row) = field_over(table, only, &mut entries) {
        return Err(Refused::FieldHolds { row });
    }
    if !only {
        return Ok(());
    }
    if let Some(row) = first_arguments(table, names) {
        return Err(Refused::NamedArguments { row });
    }
    Ok(())
}

// Refusals 6, 7 and 8, each over the whole table before the next, with an array that is as large as the
// table needs. Called where `rows::check` answers Sound: `given` of proofs/Giving.antt makes what is required of that. The sizes are
// forest's, whose `first_fault` says why the choice of one is no function for all.
pub fn refusal(
    rows: &[u8],
    names: &Names<'_>,
    converter: ArrowFunctionConverter,
) -> Result<(), Refused>
    requires { GivenRows rows.now (rows_in rows.now) }
    ensures { (w : Switches) → converter.mode ≡ mode_of w → result ≡ turned_away (names_of names.now.pairs.now names.now.text.now) w (table rows.now) }
{
    let count = rows.len() / 16;
    let table = Table { rows, count };
    match count {
        ..=64 => refusal_over::<64>(&table, names, converter),
        65..=1024 => refusal_over::<1024>(&table, names, converter),
        _ => refusal_over::<16384>(&table, names, converter),
    }
}
