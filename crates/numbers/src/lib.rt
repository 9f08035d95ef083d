// The number behind each made name.
//
//     let _this = 1; () => this          let _this = 1; var _this2 = this; (function () { return _this2; });
//
// What is taken is kept as numbered entries, the names of the table and then the made names, in buckets by a number of
// their bytes: whether a name is taken is found without a search of all entries. An entry that is the bare name of a base, as
// `_this`, keeps how far the numbers behind it are known to be taken, so that no search starts anew: of 16,383 captures of `this`
// each takes a few steps.

#![tactic(auto)]

ghost use Rattle.std.specs.Prelude.{◌≡◌, [], ◌+◌, ◌%◌, ◌≤◌, ◌<◌, length};
ghost use Rattle.names.specs.Names.{same_bytes};
ghost use Rattle.spelling.specs.Hash.{hash_of};
ghost use Rattle.buckets.specs.Search.{first_where};
ghost use Rattle.base_text.specs.Bindings.{records_in};
ghost use Rattle.candidates.specs.Candidates.{candidate, behind};
ghost use Rattle.numbers.specs.Tables.{is_text, Seeking, Stored, Found};

use buckets::{file, first_in};
use candidates::{Checked, put_candidate};
use spelling::{hash_bytes, same_bytes};

// The most bytes of a made name are 281; a name is written into an array of this size. A function that handed back what
// `put_candidate` has written would ask again what that asks, for a line less at each of its three calls: no plainer.
const NAME_ROOM: usize = 288;

// The bucket of x, of so many.
fn bucket(x: &[u8], buckets: usize) -> usize
    requires { 0 < buckets }
    ensures { (result ≡ hash_of x.now % buckets) × (result < buckets) }
{
    hash_bytes(x) % buckets
}

// What is taken: the first `count` entries, by their buckets.
#[derive(Clone, Copy)]
struct Taken<'a> {
    lasts: &'a [u32],
    befores: &'a [u32],
    numbers: &'a [u32],
    count: usize,
    checked: Checked<'a>,
    ghost stored: { Stored checked.script.bindings.now checked.script.names.now checked.script.text.now lasts.now befores.now numbers.now count },
}

// A binding's number stays a bare `b`, here and in `Tables`: a type for it would hold the script too, for its bound, and each
// contract would ask that this is the script of the tables: no plainer.
impl Taken<'_> {
    ghost use Rattle.numbers.specs.Lent.{base, known, entry};

    // Whether entry e is x.
    fn is_entry(self, x: &[u8], e: usize) -> bool
        requires { (0 < e) × (e ≤ self.count) }
        ensures { result ≡ same_bytes (entry self.entry.checked self.entry.numbers.now e) x.now }
    {
        let checked = self.checked;
        let named = checked.named();
        if e <= named {
            return checked.names().is_spelled(e, x);
        }
        let mut name = [0; NAME_ROOM];
        let b = (e - named) as u32;
        let end = put_candidate(&mut name, 0, b, self.numbers[e], checked.script);
        same_bytes(&name[..end], x)
    }

    // The first entry that is x, 0 where there is none, as in the tables: an Option would only turn that 0 back and forth.
    fn find(&self, x: &[u8]) -> usize
        ensures { (result ≡ first_where (is_text x.now) 1 (known self.now.checked self.now.numbers.now self.now.count)) × (result ≤ self.now.count) }
    {
        // A copy, which is read once and not at each entry.
        let taken = *self;
        let h = bucket(x, taken.lasts.len());
        first_in(taken.lasts, taken.befores, h, |e| taken.is_entry(x, e))
    }

    // The same of the made name of binding b with the number n. Inlined into both of its callers, as it was measured.
    #[inline(always)]
    fn find_candidate(&self, b: u32, n: u32) -> usize
        requires { (0 < b) × (b ≤ records_in self.now.checked.script.bindings.now) }
        ensures { (result ≡ first_where (is_text (candidate (base self.now.checked b) n)) 1 (known self.now.checked self.now.numbers.now self.now.count)) × (result ≤ self.now.count) }
    {
        let mut name = [0; NAME_ROOM];
        let end = put_candidate(&mut name, 0, b, n, self.checked.script);
        self.find(&name[..end])
    }

    // The number that frees binding b's name, where all numbers below `from` are taken.
    fn free_number(&self, b: u32, from: u32) -> u32
        requires b_nonzero { (0 < b) × (b ≤ records_in self.now.checked.script.bindings.now) }
        requires seeking { Seeking (known self.now.checked self.now.numbers.now self.now.count) (base self.now.checked b) from }
        ensures { result ≡ behind (known self.now.checked self.now.numbers.now self.now.count) (base self.now.checked b) }
    {
        let mut n = from;
        // A loop by hand: the search has no bound of its own, so that a range and its `find` would need one, and an arm for a number
        // that is never missing: no plainer.
        while self.find_candidate(b, n) != 0 {
            n += 1;
        }
        n
    }
}

// The four tables by which the numbers are found, as they are lent. By bucket: its last entry. By entry: the one before it in its
// bucket, how far the numbers behind it are known to be taken, and the number that stands behind a made name.
#[derive(Drop)]
pub struct Tables<'a> {
    pub lasts: &'a mut [u32],
    pub befores: &'a mut [u32],
    pub reached: &'a mut [u32],
    pub numbers: &'a mut [u32],
    pub checked: Checked<'a>,
}

impl Tables<'_> {
    ghost use Rattle.numbers.specs.Lent.{named, records, base, own_names, put, reaching, Same, Fits, Held, Right, Blank, Chooses, NumbersOne, NumbersAll};

    // Puts entry e, which is x, into its bucket.
    fn enter(&mut self, x: &[u8], e: usize)
        requires { Fits self.old e }
        ensures { self.new ≡ put self.old x.now e }
    {
        let h = bucket(x, self.lasts.len());
        file(self.lasts, self.befores, h, e);
    }

    // Puts the made name of binding b with the number n, which is entry e, into its bucket, and answers its bytes.
    fn enter_candidate(&mut self, b: u32, n: u32, e: usize) -> usize
        requires b_nonzero { (0 < b) × (b ≤ records self.old) }
        requires fits { Fits self.old e }
        ensures value { (result ≡ length (candidate (base self.old.checked b) n)) × (result ≤ 281) }
        ensures put { self.new ≡ put self.old (candidate (base self.old.checked b) n) e }
    {
        let mut name = [0; NAME_ROOM];
        let end = put_candidate(&mut name, 0, b, n, self.checked.script);
        self.enter(&name[..end], e);
        end
    }

    // What is taken, of which so many entries are right.
    fn taken(&self, count: usize) -> Taken<'_>
        requires { Held self.now count }
        ensures { (result.checked ≡ self.now.checked) × (result.numbers.now ≡ self.now.numbers.now) × (result.count ≡ count) }
    {
        Taken {
            lasts: self.lasts,
            befores: self.befores,
            numbers: self.numbers,
            count,
            checked: self.checked,
        }
    }

    // The number behind binding b's name, 1 for none, as `numbers` has it and `put_candidate` takes it: an Option would only turn that
    // 1 back and forth. Where its bare name is an entry, that entry keeps the number.
    fn choose(&mut self, b: u32, count: usize) -> u32
        requires b_nonzero { (0 < b) × (b ≤ records self.old) }
        requires right { Right self.old count }
        ensures same { self.new ≡ reaching self.old self.new.reached.now }
        ensures long { length self.new.reached.now ≡ length self.old.reached.now }
        ensures chosen { Chooses self.old count b result self.new.reached.now }
    {
        let taken = self.taken(count);
        let bare = taken.find_candidate(b, 1);
        if bare == 0 {
            return 1;
        }
        let from = self.reached[bare] + 1;
        let n = taken.free_number(b, from);
        self.reached[bare] = n;
        n
    }

    // Finds the number behind binding b's name, which is entry count + 1, keeps it, and answers the bytes of the name.
    fn number_binding(&mut self, b: u32, count: usize) -> usize
        requires b_nonzero { (0 < b) × (b ≤ records self.old) × (count + 1 ≡ named self.old + b) }
        requires right { Right self.old count }
        ensures same { Same self.old self.new }
        ensures right_2 { Right self.new (count + 1) }
        ensures named { NumbersOne self.old self.new count b result }
    {
        let n = self.choose(b, count);
        let e = count + 1;
        self.numbers[e] = n;
        self.enter_candidate(b, n, e)
    }

    // Puts the names of the script, each the entry of its number, into their buckets.
    fn enter_names(&mut self)
        requires fits { Fits self.old (named self.old) }
        requires found { Found self.old.lasts.now self.old.befores.now [] }
        ensures same { Same self.old self.new }
        ensures found_2 { Found self.new.lasts.now self.new.befores.now (own_names self.old) }
        ensures rest { (self.new.reached.now ≡ self.old.reached.now) × (self.new.numbers.now ≡ self.old.numbers.now) }
    {
        let checked = self.checked;
        let names = checked.names();
        let count = checked.named();
        for k in 0..count {
            let name = names.bytes_of(k + 1);
            self.enter(name, k + 1);
        }
    }

    // Finds the number behind each made name, over tables of zeros, and answers how many bytes the names have together. Behind
    // the names of the script, `numbers` then has the number of each binding.
    pub fn find_numbers(&mut self) -> usize
        requires blank { Blank self.old }
        ensures same { Same self.old self.new }
        ensures numbered { NumbersAll self.old self.new result }
    {
        let checked = self.checked;
        let named = checked.named();
        let count = base_text::records_in(checked.script.bindings);
        self.enter_names();
        let mut bytes: usize = 0;
        for k in 0..count {
            bytes += self.number_binding(k as u32 + 1, named + k);
        }
        bytes
    }
}
