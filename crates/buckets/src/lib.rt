// The elements of a list by buckets: of each bucket its last element is known, and of each element the one before it in
// its bucket, so that one is found without a search of the list. The two tables are the caller's: `lasts` by bucket and
// `befores` by element, from 1; 0 is none.

#![tactic(auto)]

ghost use Rattle.std.specs.Prelude.{◌≡◌, ◌<◌, ◌^◌, cond, length, get_or, set};
ghost use Rattle.buckets.specs.Along.{members, Each, Last};

// b where it is taken, else what was found before.
pub fn pick(taken: bool, b: usize, found: usize) -> usize
    ensures { result ≡ cond taken b found }
{
    if taken {
        return b;
    }
    found
}

// The first element of bucket h of which a test holds, 0 where there is none, as in the tables: an Option would only turn that 0
// back and forth. The elements are looked at one by one, from the last to the first.
pub fn first_in<F: Fn(usize) -> bool>(lasts: &[u32], befores: &[u32], h: usize, is_it: F) -> usize
    requires bucket { h < length lasts.now }
    requires falls { Each (λ e. (e < length befores.now) × (get_or befores.now e 0 < e)) (members lasts.now befores.now h) }
    requires callable { Each (λ e. F.pre is_it e) (members lasts.now befores.now h) }
    ensures { Last (λ e t. F.post is_it e t) (members lasts.now befores.now h) 0 result }
{
    let mut found: usize = 0;
    let mut e = lasts[h] as usize;
    // A loop by hand: a chain of numbers, no counted index, for which an iterator would be no plainer.
    while e != 0 {
        let it = is_it(e);
        found = pick(it, e, found);
        e = befores[e] as usize;
    }
    found
}

// Puts element e into bucket h, as its last.
pub fn file(lasts: &mut [u32], befores: &mut [u32], h: usize, e: usize)
    requires { (h < length lasts.old) × (e < length befores.old) × (e < 2 ^ 32) }
    ensures before { befores.new ≡ set befores.old e (get_or lasts.old h 0) }
    ensures last { lasts.new ≡ set lasts.old h e }
{
    befores[e] = lasts[h];
    lasts[h] = e as u32;
}
