// The words of the input, read one behind the other.
ghost use Rattle.std.specs.Prelude.{◌≡◌, ◌+◌, ◌-◌, ◌≤◌, ◌∷◌, ◌++◌, length, IfOk};

use crate::compared::{Numbers, widened};
use crate::input::Fault;

// The words that are still to be read.
#[derive(Clone, Copy)]
pub struct Words<'a> {
    pub rest: &'a [u32],
}

impl<'a> Words<'a> {
    pub fn next(&mut self) -> Result<u32, Fault>
        ensures first { IfOk result (λ w. self.old.rest.now ≡ w ∷ self.new.rest.now) }
        ensures fewer { length self.new.rest.now ≡ length self.old.rest.now - 1 }
    {
        let (first, rest) = self.rest.split_first().ok_or(Fault::Case)?;
        self.rest = rest;
        Ok(*first)
    }

    pub fn take(&mut self, n: usize) -> Result<&'a [u32], Fault>
        ensures len { IfOk result (λ s. length s.now ≡ n) }
        ensures parts { IfOk result (λ s. self.old.rest.now ≡ s.now ++ self.new.rest.now) }
        ensures fewer { length self.new.rest.now ≤ length self.old.rest.now }
        ensures most { length self.old.rest.now ≤ length self.new.rest.now + n }
    {
        let (first, rest) = self.rest.split_at_checked(n).ok_or(Fault::Case)?;
        self.rest = rest;
        Ok(first)
    }

    // The next N words, as an answer's numbers.
    pub fn answer<const N: usize>(&mut self) -> Result<Numbers<N>, Fault>
        ensures len { IfOk result (λ _. length self.new.rest.now + N ≡ length self.old.rest.now) }
        ensures parts { IfOk result (λ a. self.old.rest.now ≡ a.0 ++ self.new.rest.now) }
    {
        Ok(Numbers(widened(self.take(N)?)))
    }
}
