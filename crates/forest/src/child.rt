// The rows side by side below an end, found by hopping over the ends of their subtrees, as far as each end is as it must be: past
// its row and not past the parent's.
ghost use Rattle.std.specs.Prelude.{◌≡◌, ◌*◌, ◌≤◌, length, MatchOption};
ghost use Rattle.names.specs.Words.{words};
ghost use Rattle.forest.specs.Children.{ChildAt, NoChild};

use names::words::end_at;

// The children that are left: those from row `next` on, below the end `end`.
#[derive(Clone, Copy)]
pub struct Children<'a> {
    pub rows: &'a [u8],
    pub next: usize,
    pub end: usize,
}

impl Children<'_> {
    // The next of them. One whose end is at fault is the last, and is not given out: `next` stays at it.
    #[inline(always)]
    pub fn next(&mut self) -> Option<usize>
        requires { 16 * self.old.end ≤ length self.old.rows.now }
        ensures rows { self.new.rows ≡ self.old.rows }
        ensures end { self.new.end ≡ self.old.end }
        ensures next { MatchOption result (NoChild (words self.old.rows.now) self.old.end self.old.next self.new.next) (λ row. ChildAt (words self.old.rows.now) self.old.end self.old.next row self.new.next) }
    {
        let row = self.next;
        if self.end <= row {
            return None;
        }
        let stop = end_at(self.rows, row);
        if (row < stop) & (stop <= self.end) {
            self.next = stop;
            return Some(row);
        }
        None
    }
}
