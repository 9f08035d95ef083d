// What a row tells its children.
ghost use Rattle.std.specs.Prelude.{◌≡◌, ℕ, ◌*◌, ◌≤◌, length, get_or};
ghost use Rattle.names.specs.Words.{words};
ghost use Rattle.forest.specs.Faults.{kids, faulty_kid};
ghost use Rattle.forest.specs.Told.{told_in, first_then};

use crate::child::Children;

// How many children were told, and the last of them where its end is at fault.
#[derive(Clone, Copy)]
pub struct Counted {
    pub count: usize,
    pub faulty: Option<usize>,
}

// Tells the rows side by side from c0 up to e: `one` to the first, `more` to the later ones.
#[inline(always)]
pub fn tell<T: Copy>(s: &[u8], told: &mut [T], one: T, more: T, c0: usize, e: usize) -> Counted
    requires { (e ≤ 16384) × ((16 * e ≤ length s.now) × (e ≤ length told.old)) }
    ensures each { (d : T) (j : ℕ) → get_or told.new j d ≡ told_in (first_then one more) 0 (kids (words s.now) e c0 e) j (get_or told.old j d) }
    ensures count { result.count ≡ length (kids (words s.now) e c0 e) }
    ensures faulty { result.faulty ≡ faulty_kid (words s.now) e c0 e }
{
    if e <= c0 {
        return Counted {
            count: 0,
            faulty: None,
        };
    }
    let mut children = Children {
        rows: s,
        next: c0,
        end: e,
    };
    let mut value = one;
    let mut count: usize = 0;
    while let Some(row) = children.next() {
        told[row] = value;
        value = more;
        count += 1;
    }
    let last = children.next;
    if last < e {
        told[last] = value;
        return Counted {
            count: count + 1,
            faulty: Some(last),
        };
    }
    Counted {
        count,
        faulty: None,
    }
}
