// Writing bytes, and numbers in decimal. Each function writes from byte `at` on, drops what does not
// fit, and answers where it stopped, as if there were room for all.
// No struct holds slice and place: in candidates and parser it would be made anew at each call, and in printer each function that
// writes would promise besides that it still holds the slice lent, as `output::writer::Writer` does: no plainer. The bound on `at`
// stands in each contract, here, in candidates and in printer: what is written raises `at`, so that no bound in a type would hold
// before and after.

#![tactic(auto)]

ghost use Rattle.std.specs.Prelude.{[], ◌∷◌, ◌+◌, ◌≤◌, ◌<◌, ◌^◌, length};
ghost use Rattle.decimal.specs.Decimal.{decimal, Wrote};

const ZERO: u8 = 48;

// One byte.
pub fn put_byte(out: &mut [u8], at: usize, b: u8) -> usize
    requires { at < 2 ^ 63 }
    ensures { Wrote out.old at (b ∷ []) result out.new }
{
    if at < out.len() {
        out[at] = b;
        return at + 1;
    }
    at + 1
}

// The bytes of s.
pub fn put_bytes(out: &mut [u8], at: usize, s: &[u8]) -> usize
    requires at_bound { at < 2 ^ 60 }
    requires s_len_bound { length s.now < 2 ^ 60 }
    ensures { Wrote out.old at s.now result out.new }
{
    let mut to = at;
    for b in s {
        to = put_byte(out, to, *b);
    }
    to
}

// n in decimal, most significant digit first: one digit at least, and ten at most. That it calls itself with a tenth of n is a rule
// of the project: document 01 names this form for it.
pub fn put_number(out: &mut [u8], at: usize, n: u32) -> usize
    requires { at < 2 ^ 62 }
    ensures { (Wrote out.old at (decimal n) result out.new) × (result ≤ at + 10) × (at < result) }
{
    if n < 10 {
        put_byte(out, at, ZERO + n as u8)
    } else {
        let next = put_number(out, at, n / 10);
        put_byte(out, next, ZERO + (n % 10) as u8)
    }
}
