// The bindings as the first walk makes them: the lent array, and how many it holds. It is taken apart
// here, and what is done to the array is done by functions on words and a number.
// A Maker's methods lend the array to those of the same names of a FrameState: a rule of the project wants a frame's state as a value
// that its own operations hand back (docs/TRACE.md, "Forms"), which bodies over `&mut self` would not be.
ghost use Rattle.std.specs.Prelude.{◌≡◌, ◌++◌};
ghost use Rattle.uses.specs.Uses.{capture_number, access_number};
ghost use Rattle.steps.specs.Bindings.{note, params_of};
ghost use Rattle.bindings.specs.Search.{note_capture};
ghost use Rattle.bindings.specs.Store.{binds};
ghost use Rattle.bindings.specs.Post.{Kept, Asked};
ghost use Rattle.bindings.specs.Filed.{Filed, behind};
ghost use Rattle.bindings.specs.Making.{named_of, list_of, behind_of, FiledOf};

use crate::frame::Frame;
use crate::view::Bindings;
use crate::{
    ARGUMENTS, FIRST_ACCESSOR, NEXT, THIS, add, add_params, bucket, entry, file, place, push,
};
use spelling::Names;
use uses::{Access, Capture, Use};

#[derive(Drop)]
pub struct Maker<'a> {
    pub made: &'a mut [u32],
    pub cap: usize,
    pub count: usize,
}

impl Maker<'_> {
    // Opens the capture of `this` or of `arguments` in a frame, where it has none yet.
    pub fn capture(&mut self, frame: usize, capture: Capture)
        requires { Asked self.old.made.now self.old.cap frame self.old.count (note_capture (capture_number capture) frame (list_of self.old)) }
        ensures same_reference { self.new.made.ghost_name ≡ self.old.made.ghost_name }
        ensures cap_value { self.new.cap ≡ self.old.cap }
        ensures kept { Kept self.new.made.now self.old.cap (note_capture (capture_number capture) frame (list_of self.old)) self.new.count }
        ensures made_unchanged { behind_of self.new ≡ behind_of self.old }
    {
        let state = FrameState {
            row: frame,
            count: self.count,
        };
        self.count = state.capture(self.made, self.cap, capture).count;
    }

    // Closes a frame: the parameters of its accessors, by first use.
    pub fn close(&mut self, frame: usize)
        requires { Asked self.old.made.now self.old.cap frame self.old.count (list_of self.old ++ params_of frame (list_of self.old)) }
        ensures same_reference { self.new.made.ghost_name ≡ self.old.made.ghost_name }
        ensures cap_value { self.new.cap ≡ self.old.cap }
        ensures kept { Kept self.new.made.now self.old.cap (list_of self.old ++ params_of frame (list_of self.old)) self.new.count }
        ensures made_unchanged { behind_of self.new ≡ behind_of self.old }
    {
        let state = FrameState {
            row: frame,
            count: self.count,
        };
        self.count = state.close(self.made, self.cap).count;
    }

    // Notes an accessor of that use and property in a frame, where it has none yet.
    pub fn note_super(&mut self, names: &Names<'_>, frame: usize, access: Access, x: u32)
        requires asked { Asked self.old.made.now self.old.cap frame self.old.count (note (named_of names.now) (access_number access) frame x (list_of self.old)) }
        requires filed { FiledOf names.now self.old }
        ensures same_reference { self.new.made.ghost_name ≡ self.old.made.ghost_name }
        ensures cap_value { self.new.cap ≡ self.old.cap }
        ensures kept { Kept self.new.made.now self.old.cap (note (named_of names.now) (access_number access) frame x (list_of self.old)) self.new.count }
        ensures filed_2 { FiledOf names.now self.new }
    {
        let state = FrameState {
            row: frame,
            count: self.count,
        };
        self.count = state
            .note_super(self.made, self.cap, names, access, x)
            .count;
    }
}

// The state of a frame: its row, and how many bindings there are. It goes in by value and is handed
// back by its own operations.
#[derive(Clone, Copy)]
struct FrameState {
    row: usize,
    count: usize,
}

impl FrameState {
    fn capture(self, made: &mut [u32], cap: usize, capture: Capture) -> FrameState
        requires { Asked made.old cap self.row self.count (note_capture (capture_number capture) self.row (binds made.old cap self.count)) }
        ensures kept { Kept made.new cap (note_capture (capture_number capture) self.row (binds made.old cap self.count)) result.count }
        ensures row_value { result.row ≡ self.row }
        ensures made_unchanged { behind cap made.new ≡ behind cap made.old }
    {
        let row = self.row;
        let count = self.count;
        let table = place(cap, capture == Capture::This, THIS, ARGUMENTS, row);
        if made[table] != 0 {
            return self;
        }
        let b = count + 1;
        push(made, cap, b, Use::from(capture), 0, row);
        made[table] = b as u32;
        FrameState { row, count: b }
    }

    fn close(self, made: &mut [u32], cap: usize) -> FrameState
        requires { Asked made.old cap self.row self.count (binds made.old cap self.count ++ params_of self.row (binds made.old cap self.count)) }
        ensures kept { Kept made.new cap (binds made.old cap self.count ++ params_of self.row (binds made.old cap self.count)) result.count }
        ensures row_value { result.row ≡ self.row }
        ensures made_unchanged { behind cap made.new ≡ behind cap made.old }
    {
        let row = self.row;
        let count = self.count;
        let mut total = count;
        let mut b = entry(made, FIRST_ACCESSOR * cap + row);
        // A loop by hand: a chain of numbers, in an array that is lent to `add_params` meanwhile, so that an iterator could not hold
        // it: no plainer.
        while b != 0 {
            let access = Access::from(entry(made, b));
            let x = entry(made, cap + b);
            total = add_params(made, cap, total, access, x, row);
            b = entry(made, NEXT * cap + b);
        }
        FrameState { row, count: total }
    }

    fn note_super(
        self,
        made: &mut [u32],
        cap: usize,
        names: &Names<'_>,
        access: Access,
        x: u32,
    ) -> FrameState
        requires asked { Asked made.old cap self.row self.count (note (named_of names.now) (access_number access) self.row x (binds made.old cap self.count)) }
        requires filed { Filed names.now.pairs.now names.now.text.now (behind cap made.old) cap (binds made.old cap self.count) }
        ensures kept { Kept made.new cap (note (named_of names.now) (access_number access) self.row x (binds made.old cap self.count)) result.count }
        ensures row_value { result.row ≡ self.row }
        ensures filed_2 { Filed names.now.pairs.now names.now.text.now (behind cap made.new) cap (binds made.new cap result.count) }
    {
        let row = self.row;
        let count = self.count;
        let bindings = Bindings { made, cap, count };
        let seen = Frame { bindings, row };
        if seen.accessor(names, access, x as usize) != 0 {
            return self;
        }
        let b = add(made, cap, count, Use::from(access), x, row);
        let h = bucket(names, cap, access, row, x as usize);
        file(made, cap, h, b);
        FrameState { row, count: b }
    }
}
