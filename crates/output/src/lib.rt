// Writing rows and records into bytes that the caller lends: rows by a `Writer`. A row or record that does not lie
// whole in the bytes is left out, and the count goes on: over no bytes at all, a walk counts.

#![tactic(auto)]

pub mod writer;

ghost use Rattle.std.specs.Prelude.{◌<◌, ◌^◌};
ghost use Rattle.output.specs.Output.{Appended, Recorded};

use names::words::put_word;

// Row `at`, where it lies whole in the bytes; the answer is the next row's number.
fn append_row(out: &mut [u8], at: usize, kind: u32, attr: u32, name: u32, end: u32) -> usize
    requires { at < 2 ^ 32 }
    ensures { Appended out.old at kind attr name end result out.new }
{
    let b = at * 16;
    let next = at + 1;
    if b + 16 <= out.len() {
        put_word(out, b, kind);
        put_word(out, b + 4, attr);
        put_word(out, b + 8, name);
        put_word(out, b + 12, end);
    }
    next
}

// Record `at`, where it lies whole in the bytes; the answer is the next record's number.
// One function of so many words for this and `append_row` is no plainer: it needs a loop with an invariant and a definition that stores a list of
// words, where each body is its definition, line by line.
pub fn put_record(out: &mut [u8], at: usize, a: u32, b: u32, c: u32) -> usize
    requires { at < 2 ^ 32 }
    ensures { Recorded out.old at a b c result out.new }
{
    let first = at * 12;
    let after = at + 1;
    if first + 12 <= out.len() {
        put_word(out, first, a);
        put_word(out, first + 4, b);
        put_word(out, first + 8, c);
    }
    after
}
