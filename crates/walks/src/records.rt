// The records of the bindings, which are written without a walk.
ghost use Rattle.output.specs.Output.{Copied};
ghost use Rattle.bindings.specs.Store.{binds};

use bindings::view::Bindings;
use output::put_record;

// The records of the bindings. The answer is their number.
pub fn write_records(bindings: Bindings<'_>, out: &mut [u8]) -> usize
    ensures { Copied out.old 0 (binds bindings.entry.made.now bindings.entry.cap bindings.entry.count) result out.new }
{
    for i in 0..bindings.count {
        let b = bindings.record((i + 1) as u32);
        put_record(out, i, b.usage, b.property, b.frame);
    }
    bindings.count
}
