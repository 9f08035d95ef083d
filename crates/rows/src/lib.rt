// The table of rows: the refusals 1, 4, 21 to 25, 3 and 5 in that order. Everything that decides
// whether bytes are a table at all.

#![tactic(auto)]

mod made;

ghost use Rattle.std.specs.Prelude.{◌≡◌, Bool, ℕ, ◌≤◌};
ghost use Rattle.rows.specs.Limits.{row_limit_of, depth_limit_of};
ghost use Rattle.rows.specs.Refusals.{unsound_number, unsound_place, limited, sizes_ok, checked};

use forest::depth::first_deep;
use forest::faults::first_fault;
use forest::{BadRow, Fault, RowBytes};

// How large a table may be. A limit over 16,384 counts as 16,384.
#[derive(Clone, Copy)]
pub struct Limits {
    pub rows: usize,
    pub depth: usize,
}

// The most rows and the greatest depth that any caller can ask for.
const MOST_ROWS: usize = 16384;

// "The contractors' tablet build takes at most 512 rows and depth 32"
const TABLET_ROWS: usize = 512;

const TABLET_DEPTH: usize = 32;

// "the print room keeps 16,384 and 128"
const PRINT_ROOM_ROWS: usize = 16384;

const PRINT_ROOM_DEPTH: usize = 128;

// The limits of a caller, which is a tablet or the print room.
pub fn limits_for(tablet: bool) -> Limits
    ensures { (result.rows ≡ row_limit_of tablet) × (result.depth ≡ depth_limit_of tablet) }
{
    if tablet {
        return Limits {
            rows: TABLET_ROWS,
            depth: TABLET_DEPTH,
        };
    }
    Limits {
        rows: PRINT_ROOM_ROWS,
        depth: PRINT_ROOM_DEPTH,
    }
}

// Why some bytes are no table.
#[derive(Clone, Copy, Debug, PartialEq, Eq)]
pub enum Unsound {
    Malformed,
    BadName { name: usize },
    BadRow { fault: Fault, row: usize },
    TooDeep { row: usize },
    MadeBinding { row: usize },
}

impl Unsound {
    // The request's number of it.
    pub fn number(self) -> u32
        ensures { result ≡ unsound_number self }
    {
        match self {
            Unsound::Malformed => 1,
            Unsound::BadRow { fault, .. } => fault.number(),
            Unsound::TooDeep { .. } => 3,
            Unsound::BadName { .. } => 4,
            Unsound::MadeBinding { .. } => 5,
        }
    }

    // Its place: 0, the number of a name from 1, or a row.
    pub fn place(self) -> usize
        ensures { result ≡ unsound_place self }
    {
        match self {
            Unsound::Malformed => 0,
            Unsound::BadName { name } => name,
            Unsound::BadRow { row, .. } | Unsound::TooDeep { row } | Unsound::MadeBinding { row } =>
                row,
        }
    }
}

fn capped(limit: usize) -> usize
    ensures { (result ≡ limited limit) × (result ≤ 16384) }
{
    limit.min(MOST_ROWS)
}

fn sizes_ok(most: usize, rows: usize, names: usize, text: usize) -> bool
    requires { most ≤ 16384 }
    ensures { result ≡ sizes_ok most rows names text }
{
    let named = names::names_fit(names, text);
    (rows % 16 == 0) & (0 < rows) & (rows <= 16 * most) & named
}

// Whether these bytes are a table: the rows, the pairs of the names and the text that they are
// over. Refusals 1, 4, 21 to 25, 3 and 5, each over the whole table before the next.
pub fn check(rows: &[u8], names: &[u8], text: &[u8], limits: Limits) -> Result<(), Unsound>
    ensures { result ≡ checked limits.rows limits.depth rows.now names.now text.now }
{
    let most = capped(limits.rows);
    let deepest = capped(limits.depth);
    if !sizes_ok(most, rows.len(), names.len(), text.len()) {
        return Err(Unsound::Malformed);
    }
    let counted = RowBytes {
        bytes: rows,
        count: rows.len() / 16,
    };
    if let Some(name) = names::first_bad_name(names, text) {
        return Err(Unsound::BadName { name });
    }
    if let Some(BadRow { fault, row }) = first_fault(&counted, names.len() / 8) {
        return Err(Unsound::BadRow { fault, row });
    }
    if let Some(row) = first_deep(&counted, deepest as u16) {
        return Err(Unsound::TooDeep { row });
    }
    if let Some(row) = made::first_made(&counted) {
        return Err(Unsound::MadeBinding { row });
    }
    Ok(())
}
