// Refusals 6, 7 and 8, each by one pass over the rows of a table that `rows::check` accepts; 6 and 7
// with an array of an entry for each row, that is lent or as large as the table needs.
ghost use Rattle.std.specs.Prelude.{◌≡◌, ◌+◌, ◌*◌, ◌<◌, ◌≤◌, length, get_or};
ghost use Rattle.names.specs.Words.{words, kind_at, name_at, end_at};
ghost use Rattle.forest.specs.Forest.{rows_at};
ghost use Rattle.steps.specs.Refusals.{seek, sixes, outer};
ghost use Rattle.refusals.specs.Given.{GivenRows, Clear};
ghost use Rattle.refusals.specs.Hits.{value_from, hit, holds_at, field_rule};
ghost use Rattle.refusals.specs.Refused.{binds_arguments, name_rule};

use crate::standing::{stand, super_bad};
use forest::told::tell;
use grammar::kind::Kind;
use names::words::{attr_at, end_at, kind_at, name_at};
use spelling::Names;
use steps::has_bit;

// The rows of a table that `rows::check` accepts, and how many they are.
#[derive(Clone, Copy)]
pub struct Table<'a> {
    pub rows: &'a [u8],
    pub count: usize,
    pub ghost known: { GivenRows rows.now count },
}

// The first Super that its owner does not allow, with an array of zeros that has room for an entry a row.
pub(crate) fn super_over(table: &Table<'_>, stands: &mut [u16]) -> Option<usize>
    requires { Clear stands.old table.now.count }
    ensures { result ≡ seek sixes outer outer 0 (rows_at (words table.now.rows.now) 0 table.now.count) }
{
    let rows = table.rows;
    // No `find`: its test would have to tell the row's children too, and so change what is asked of the rows behind it: no plainer.
    for i in 0..table.count {
        let k = kind_at(rows, i);
        let a = attr_at(rows, i);
        let e = end_at(rows, i);
        let v = stands[i];
        if super_bad(v, k) {
            return Some(i);
        }
        let one = stand(true, v, k, a);
        let more = stand(false, v, k, a);
        tell(rows, stands, one, more, i + 1, e);
    }
    None
}

// The same with an array of its own, for a table of at most N rows.
fn super_of<const N: usize>(table: &Table<'_>) -> Option<usize>
    requires { (table.now.count ≤ N) × (N ≤ 16384) }
    ensures { result ≡ seek sixes outer outer 0 (rows_at (words table.now.rows.now) 0 table.now.count) }
{
    let mut stands = [0u16; N];
    super_over(table, &mut stands)
}

// Refusal 6: the first Super that its owner does not allow. The sizes are forest's, whose `first_fault` says
// why the choice of one is no function for all.
pub fn first_super(table: &Table<'_>) -> Option<usize>
    ensures { result ≡ seek sixes outer outer 0 (rows_at (words table.now.rows.now) 0 table.now.count) }
{
    match table.count {
        ..=64 => super_of::<64>(table),
        65..=1024 => super_of::<1024>(table),
        _ => super_of::<16384>(table),
    }
}

// The first row of the value of a Field i of attr a and end e; e where it has none, as the definition has it. A row at e is none
// too, so that the test of that stays where it is asked, and an Option would only add one: no plainer.
fn value_from(rows: &[u8], i: usize, a: usize, e: usize) -> usize
    requires { (i < e) × ((e ≤ 16384) × (16 * e ≤ length rows.now)) }
    ensures { result ≡ value_from (words rows.now) i a e }
{
    if !has_bit(4, a) {
        return e;
    }
    if !has_bit(1, a) {
        return i + 1;
    }
    if i + 1 < e {
        return end_at(rows, i + 1);
    }
    e
}

// Whether row i is a Field whose value reaches the next hit from its first row on.
#[tactic(auto, unfolding(crate::specs::Hits::holds_at))]
fn field_holds(rows: &[u8], next: &[u16], i: usize) -> bool
    requires i_bound { (i < end_at (words rows.now) i) × ((end_at (words rows.now) i ≤ 16384) × (16 * end_at (words rows.now) i ≤ length rows.now)) }
    requires i_in_bounds { end_at (words rows.now) i ≤ length next.now }
    ensures { result ≡ holds_at (words rows.now) (λ j. get_or next.now j 0) i }
{
    match Kind::from(kind_at(rows, i)) {
        Kind::Field => {
            let e = end_at(rows, i);
            let start = value_from(rows, i, attr_at(rows, i), e);
            start < e && (next[start] as usize) < e
        }
        _ => false,
    }
}

// Whether a Field whose value holds a row of that kind is refused.
fn is_hit(kind: usize, arrows: bool) -> bool
    ensures { result ≡ hit arrows kind }
{
    match Kind::from(kind) {
        Kind::Super => true,
        Kind::Arrow => arrows,
        _ => false,
    }
}

// The first Field whose value holds a Super, or with `arrows` an Arrow, with an array that has room
// for an entry a row. The rows are visited from the last, so that the next such row is known from each row
// on, and the lowest Field that reaches one stays. (The outermost Field of the first such row would
// not do: a Field's key may hold a Field of its own.)
pub(crate) fn field_over(table: &Table<'_>, arrows: bool, next: &mut [u16]) -> Option<usize>
    requires { table.now.count ≤ length next.old }
    ensures { result ≡ seek (field_rule arrows) tt tt 0 (rows_at (words table.now.rows.now) 0 table.now.count) }
{
    let rows = table.rows;
    let mut hit = table.count;
    let mut found = None;
    for i in (0..table.count).rev() {
        if is_hit(kind_at(rows, i), arrows) {
            hit = i;
        }
        next[i] = hit as u16;
        if field_holds(rows, next, i) {
            found = Some(i);
        }
    }
    found
}

// The same with an array of its own, for a table of at most N rows.
fn field_of<const N: usize>(table: &Table<'_>, arrows: bool) -> Option<usize>
    requires { (table.now.count ≤ N) × (N ≤ 16384) }
    ensures { result ≡ seek (field_rule arrows) tt tt 0 (rows_at (words table.now.rows.now) 0 table.now.count) }
{
    let mut next = [0u16; N];
    field_over(table, arrows, &mut next)
}

// Refusal 7: the first Field whose value holds a Super, or with `arrows` an Arrow. The sizes are those of `first_super`.
pub fn first_field(table: &Table<'_>, arrows: bool) -> Option<usize>
    ensures { result ≡ seek (field_rule arrows) tt tt 0 (rows_at (words table.now.rows.now) 0 table.now.count) }
{
    match table.count {
        ..=64 => field_of::<64>(table, arrows),
        65..=1024 => field_of::<1024>(table, arrows),
        _ => field_of::<16384>(table, arrows),
    }
}

// Whether row i is a Declarator, Function or Class named `arguments`.
fn binds_arguments(rows: &[u8], names: &Names<'_>, i: usize) -> bool
    requires { (i < 16384) × (16 * i + 16 ≤ length rows.now) }
    ensures { result ≡ binds_arguments names.now.pairs.now names.now.text.now (kind_at (words rows.now) i) (name_at (words rows.now) i) }
{
    match Kind::from(kind_at(rows, i)) {
        Kind::Declarator | Kind::Function | Kind::Class => { names.is_arguments(name_at(rows, i)) }
        _ => false,
    }
}

// Refusal 8, in AsyncOnly: the first Declarator, Function or Class named `arguments`.
pub fn first_arguments(table: &Table<'_>, names: &Names<'_>) -> Option<usize>
    ensures { result ≡ seek (name_rule names.now.pairs.now names.now.text.now) tt tt 0 (rows_at (words table.now.rows.now) 0 table.now.count) }
{
    (0..table.count).find(|i| binds_arguments(table.rows, names, *i))
}
