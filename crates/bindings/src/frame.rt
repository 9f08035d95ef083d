// A frame, by its row, and the bindings that are made: what the second walk asks of it.
ghost use Rattle.std.specs.Prelude.{◌≡◌, ℕ, ◌<◌, true, false};
ghost use Rattle.uses.specs.Uses.{access_number};
ghost use Rattle.steps.specs.Outcome.{names_of};
ghost use Rattle.steps.specs.Bindings.{number};
ghost use Rattle.bindings.specs.Store.{binds, this_at, arguments_at, first_at};
ghost use Rattle.bindings.specs.Filed.{Filed, behind};

use crate::view::Bindings;
use crate::{ARGUMENTS, BUCKETS, FIRST_ACCESSOR, FIRST_PARAM, THIS, bucket};
use buckets::first_in;
use spelling::Names;
use uses::Access;

#[derive(Clone, Copy)]
pub struct Frame<'a> {
    pub bindings: Bindings<'a>,
    pub row: usize,
    pub ghost low: { row < bindings.cap },
}

impl Frame<'_> {
    // Its capture of `this`.
    pub fn this_of(self) -> u32
        ensures { result ≡ this_at self.entry.bindings.made.now self.entry.bindings.cap self.entry.row }
    {
        self.bindings.word(THIS, self.row)
    }

    // Its capture of `arguments`.
    pub fn arguments_of(self) -> u32
        ensures { result ≡ arguments_at self.entry.bindings.made.now self.entry.bindings.cap self.entry.row }
    {
        self.bindings.word(ARGUMENTS, self.row)
    }

    // Its first accessor.
    pub fn first_accessor(self) -> u32
        ensures { result ≡ first_at self.entry.bindings.made.now false self.entry.bindings.cap self.entry.row }
    {
        self.bindings.word(FIRST_ACCESSOR, self.row)
    }

    // The first parameter of its accessors.
    pub fn first_param(self) -> u32
        ensures { result ≡ first_at self.entry.bindings.made.now true self.entry.bindings.cap self.entry.row }
    {
        self.bindings.word(FIRST_PARAM, self.row)
    }

    // The number of the frame's accessor of that use and property, 0 where it has none.
    pub fn accessor(self, names: &Names<'_>, access: Access, x: usize) -> usize
        requires filed { Filed names.now.pairs.now names.now.text.now (behind self.bindings.cap self.bindings.made.now) self.bindings.cap (binds self.bindings.made.now self.bindings.cap self.bindings.count) }
        ensures { (result ≡ number (names_of names.now.pairs.now names.now.text.now) (binds self.entry.bindings.made.now self.entry.bindings.cap self.entry.bindings.count) (access_number access) self.entry.row x)
            × (result < self.entry.bindings.cap) }
    {
        let all = self.bindings;
        let row = self.row;
        let h = bucket(names, all.cap, access, row, x);
        first_in(all.table(BUCKETS), all.table(BUCKETS + 1), h, |b| {
            all.is_it(names, b, access, row, x)
        })
    }
}
