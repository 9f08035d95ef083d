// The first row that breaks the grammar, with its lowest fault, for the refusals 21 to 25. The rows are
// visited in order with an array of marks, one a row: its place, and 16 more where its end is at fault.
// Each row marks its children.
ghost use Rattle.std.specs.Prelude.{◌≡◌, ℕ, ◌*◌, ◌<◌, ◌≤◌, length, get_or, None};
ghost use Rattle.names.specs.Words.{words};
ghost use Rattle.grammar.specs.Codes.{kind_number, place_number};
ghost use Rattle.forest.specs.Faults.{kids, early_fault, late_fault, first_fault};
ghost use Rattle.forest.specs.Told.{told_in, Fresh, says, top_mark, lowest_fault};

use crate::told::tell;
use crate::{BadRow, Fault, RowBytes};
use grammar::kind::Kind;
use grammar::place::Place;
use grammar::{attr_ok, count_ok, fits_in, name_ok, place_of};
use names::words::{attr_at, end_at, kind_at, name_at};

// A mark is a byte, since a table has one for each row: this much more where the end is at fault.
const END_AT_FAULT: u8 = 16;

// Marks the children of a row of that kind and attr, whose subtree ends at e and whose first child is
// at c0; how many there are.
fn mark_children(s: &[u8], marks: &mut [u8], kind: Kind, a: usize, c0: usize, e: usize) -> usize
    requires { (e ≤ 16384) × ((16 * e ≤ length s.now) × (e ≤ length marks.old)) }
    ensures { (result ≡ length (kids (words s.now) e c0 e))
        × ((j : ℕ) → get_or marks.new j 0 ≡ told_in (says (words s.now) (kind_number kind) a e) 0 (kids (words s.now) e c0 e) j (get_or marks.old j 0)) }
{
    if e <= c0 {
        return 0;
    }
    let one = place_of(kind, a, 0).number();
    let more = place_of(kind, a, 1).number();
    let told = tell(s, marks, one, more, c0, e);
    if let Some(row) = told.faulty {
        marks[row] += END_AT_FAULT;
    }
    told.count
}

// The first three faults.
#[tactic(auto, unfolding(crate::specs::Faults::early_fault))]
fn early_fault(place: Place, ends: bool, kind: Kind, a: usize) -> Option<Fault>
    ensures { result ≡ early_fault (place_number place) ends (kind_number kind) a None }
{
    if kind == Kind::Unlisted {
        return Some(Fault::Kind);
    }
    if !attr_ok(kind, a, place) {
        return Some(Fault::Attr);
    }
    if !ends {
        return Some(Fault::End);
    }
    None
}

// The last two.
#[tactic(auto, unfolding(crate::specs::Faults::late_fault))]
fn late_fault(
    names: usize,
    place: Place,
    kind: Kind,
    a: usize,
    name: usize,
    count: usize,
) -> Option<Fault>
    ensures { result ≡ late_fault names (place_number place) (kind_number kind) a name count }
{
    if !(fits_in(place, kind) & count_ok(kind, a, count)) {
        return Some(Fault::Place);
    }
    if !name_ok(kind, a, name, names) {
        return Some(Fault::Name);
    }
    None
}

// The mark of row 0, which ends at the row count.
fn top_mark(end: usize, n: usize) -> u8
    ensures { result ≡ top_mark end n }
{
    let top = Place::Top.number();
    if end == n {
        return top;
    }
    top + END_AT_FAULT
}

// The lowest row that has a fault. The array has room for a mark a row and is all 0.
fn lowest_fault(rows: &RowBytes<'_>, names: usize, marks: &mut [u8]) -> Option<BadRow>
    requires some { 0 < rows.now.count }
    requires fresh { Fresh marks.old rows.now.count }
    ensures { result ≡ lowest_fault (words rows.now.bytes.now) rows.now.count names }
{
    let bytes = rows.bytes;
    let n = rows.count;
    marks[0] = top_mark(end_at(bytes, 0), n);
    // No `find`: its test would have to tell the row's children too, and so change what is asked of the rows behind it: no plainer.
    for row in 0..n {
        let kind = Kind::from(kind_at(bytes, row));
        let a = attr_at(bytes, row);
        let name = name_at(bytes, row);
        let e = end_at(bytes, row);
        let mark = marks[row];
        let place = Place::from(mark % 16);
        let ends = (mark < END_AT_FAULT) & (e <= n);
        if let Some(fault) = early_fault(place, ends, kind, a) {
            return Some(BadRow { fault, row });
        }
        let count = mark_children(bytes, marks, kind, a, row + 1, e);
        if let Some(fault) = late_fault(names, place, kind, a, name, count) {
            return Some(BadRow { fault, row });
        }
    }
    None
}

// The same of a table of at most N rows.
fn fault_of<const N: usize>(rows: &RowBytes<'_>, names: usize) -> Option<BadRow>
    requires size { (N ≤ 16384) × (rows.now.count ≤ N) }
    requires some { 0 < rows.now.count }
    ensures { result ≡ lowest_fault (words rows.now.bytes.now) rows.now.count names }
{
    let mut marks = [0u8; N];
    lowest_fault(rows, names, &mut marks)
}

// The first bad row, with an array that is as large as the table needs. The sizes are those of `depth::first_deep`: one function
// for both would take what is done as a trait with a const method, and be no plainer.
#[tactic(auto, using(crate::proofs::Descent::by_lowest))]
pub fn first_fault(rows: &RowBytes<'_>, names: usize) -> Option<BadRow>
    requires { 0 < rows.now.count }
    ensures { result ≡ first_fault (words rows.now.bytes.now) rows.now.count names }
{
    match rows.count {
        0..=64 => fault_of::<64>(rows, names),
        65..=1024 => fault_of::<1024>(rows, names),
        _ => fault_of::<16384>(rows, names),
    }
}
