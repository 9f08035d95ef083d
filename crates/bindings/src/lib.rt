// The bindings that are made, in a local array of twelve tables of `cap` words each. By binding number:
// use, property, frame, and the next of its chain. By frame: the captures of `this` and of
// `arguments`, the first and last accessor, the first and last parameter of accessors. By bucket: its
// last accessor; by accessor: the one before it in its bucket. No other crate knows what stands where:
// the first walk makes bindings through a `Maker`, the second reads them through `Bindings` and `Frame`,
// and a captured Ident is read by `capture_at`, in any array of that size.

#![tactic(auto)]

pub mod frame;
pub mod maker;
pub mod view;

ghost use Rattle.std.specs.Prelude.{◌≡◌, true, cond, ◌+◌, ◌*◌, ◌<◌, ◌≤◌, [], ◌∷◌, ◌++◌, ◌||◌, length, get_or, set};
ghost use Rattle.uses.specs.Uses.{use_number, capture_number, access_number};
ghost use Rattle.steps.specs.Bindings.{Binding.bind};
ghost use Rattle.bindings.specs.Search.{is_param, is_accessor, one_param, params_for};
ghost use Rattle.bindings.specs.Store.{binds, pushed, chained, capture_at, last_table, link_table};
ghost use Rattle.bindings.specs.Post.{Kept, Asked, Room};
ghost use Rattle.bindings.specs.Filed.{behind, bucket_of};

use buckets::pick;
use spelling::Names;
use uses::{Access, Capture, Use};

// The words of a record: as many tables, by binding. Behind them stand the other tables.
const RECORD: usize = 3;

// By binding: the next of its chain.
const NEXT: usize = RECORD;

// By frame: its captures, the first accessor, the first parameter; behind either of these two the last.
const THIS: usize = RECORD + 1;

const ARGUMENTS: usize = RECORD + 2;

const FIRST_ACCESSOR: usize = RECORD + 3;

const LAST_ACCESSOR: usize = RECORD + 4;

const FIRST_PARAM: usize = RECORD + 5;

const LAST_PARAM: usize = RECORD + 6;

// By bucket: its last accessor. Behind it, by binding, the accessor before it in its bucket.
const BUCKETS: usize = RECORD + 7;

// How many tables there are: the array has TABLES * cap words.
pub const TABLES: usize = BUCKETS + 2;

// Word j of the array, of one too that no `Maker` has made.
pub fn entry(made: &[u32], j: usize) -> usize
    requires { j < length made.now }
    ensures { result ≡ get_or made.now j 0 }
{
    made[j] as usize
}

// The capture of `this` or of `arguments` of frame f, in any array of that size.
pub fn capture_at(made: &[u32], cap: usize, usage: Capture, f: usize) -> u32
    requires { (length made.now ≡ TABLES * cap) × ((cap ≤ 16384) × (f < cap)) }
    ensures { result ≡ capture_at made.now cap (capture_number usage) f }
{
    match usage {
        Capture::This => made[THIS * cap + f],
        Capture::Arguments => made[ARGUMENTS * cap + f],
    }
}

// Writes the record of binding b.
fn push(made: &mut [u32], cap: usize, b: usize, usage: Use, x: u32, f: usize)
    requires { (length made.old ≡ TABLES * cap) × ((b < cap) × ((f < cap) × (cap ≤ 16384))) }
    ensures { made.new ≡ pushed made.old cap b (use_number usage) x f }
{
    made[b] = usage.number();
    made[cap + b] = x;
    made[2 * cap + b] = f as u32;
}

// Word `at` of table `one` where `which`, else of table `other`.
fn place(cap: usize, which: bool, one: usize, other: usize, at: usize) -> usize
    requires tables { (one < 10) × (other < 10) }
    requires bounds { (at < cap) × (cap ≤ 16384) }
    ensures { (result ≡ cond which (one * cap + at) (other * cap + at)) × (result < 10 * cap) }
{
    pick(which, one, other) * cap + at
}

fn link_table(cap: usize, param: bool, f: usize, last: usize) -> usize
    requires { (f < cap) × ((last < cap) × (cap ≤ 16384)) }
    ensures { (result ≡ link_table param cap f last) × (result < 10 * cap) }
{
    if last == 0 {
        return place(cap, param, FIRST_PARAM, FIRST_ACCESSOR, f);
    }
    NEXT * cap + last
}

// Puts binding b behind the last of its chain.
fn chain(made: &mut [u32], cap: usize, param: bool, f: usize, b: usize)
    requires made_len { (length made.old ≡ TABLES * cap) × ((b < cap) × ((f < cap) × (cap ≤ 16384))) }
    requires f_bound { get_or made.old (last_table param cap f) 0 < cap }
    ensures { made.new ≡ chained made.old cap param f b }
{
    let table = place(cap, param, LAST_PARAM, LAST_ACCESSOR, f);
    let last = entry(made, table);
    let link = link_table(cap, param, f, last);
    made[link] = b as u32;
    made[table] = b as u32;
}

// Whether it is a parameter of an accessor.
fn is_param(usage: Use) -> bool
    ensures { result ≡ is_param (use_number usage) }
{
    matches!(usage, Use::Prop | Use::Value)
}

// Binding count + 1, chained: an accessor, or a parameter of one.
pub fn add(made: &mut [u32], cap: usize, count: usize, usage: Use, x: u32, f: usize) -> usize
    requires room { Room made.old cap f count }
    requires chained { (is_param (use_number usage) || is_accessor (use_number usage)) ≡ true }
    ensures kept { Kept made.new cap (binds made.old cap count ++ (bind (use_number usage) x f ∷ [])) result }
    ensures value { result ≡ count + 1 }
    ensures made_unchanged { behind cap made.new ≡ behind cap made.old }
{
    let b = count + 1;
    push(made, cap, b, usage, x, f);
    let param = is_param(usage);
    chain(made, cap, param, f, b);
    b
}

// One parameter of an accessor, where it is wanted.
fn add_one(made: &mut [u32], cap: usize, count: usize, wanted: bool, usage: Use, f: usize) -> usize
    requires asked { Asked made.old cap f count (binds made.old cap count ++ one_param wanted (use_number usage) f) }
    requires u_value { is_param (use_number usage) ≡ true }
    ensures kept { Kept made.new cap (binds made.old cap count ++ one_param wanted (use_number usage) f) result }
    ensures made_unchanged { behind cap made.new ≡ behind cap made.old }
{
    if wanted {
        return add(made, cap, count, usage, 0, f);
    }
    count
}

// The parameters of an accessor of property x: prop if computed, then value if set.
fn add_params(
    made: &mut [u32],
    cap: usize,
    count: usize,
    access: Access,
    x: usize,
    f: usize,
) -> usize
    requires { Asked made.old cap f count (binds made.old cap count ++ params_for (access_number access) x f) }
    ensures kept { Kept made.new cap (binds made.old cap count ++ params_for (access_number access) x f) result }
    ensures made_unchanged { behind cap made.new ≡ behind cap made.old }
{
    let computed = add_one(made, cap, count, x == 0, Use::Prop, f);
    add_one(made, cap, computed, access == Access::Set, Use::Value, f)
}

// The word of a record that says what an accessor does.
fn access_word(access: Access) -> usize
    ensures { result ≡ access_number access }
{
    Use::from(access).number() as usize
}

// The bucket of an accessor.
fn bucket(names: &Names<'_>, cap: usize, access: Access, f: usize, x: usize) -> usize
    requires { (0 < cap) × (f < 16384) }
    ensures { (result ≡ bucket_of names.now.pairs.now names.now.text.now cap (access_number access) f x) × (result < cap) }
{
    let number = names.hash(x);
    (number + 613 * f + access_word(access)) % cap
}

// Puts accessor b into bucket h.
fn file(made: &mut [u32], cap: usize, h: usize, b: usize)
    requires { (length made.old ≡ TABLES * cap) × ((b < cap) × ((h < cap) × (cap ≤ 16384))) }
    ensures { made.new ≡ set (set made.old (10 * cap + (cap + b)) (get_or made.old (10 * cap + h) 0)) (10 * cap + h) b }
{
    let (_, behind) = made.split_at_mut(BUCKETS * cap);
    let (lasts, befores) = behind.split_at_mut(cap);
    buckets::file(lasts, befores, h, b);
}
