// The second walk: the rows of the result, written from the rows and the bindings.

#![tactic(auto)]

mod walkers;

ghost use Rattle.std.specs.Prelude.{◌<◌, ◌^◌};
ghost use Rattle.names.specs.Words.{rows_in};
ghost use Rattle.forest.specs.Forest.{size};
ghost use Rattle.output.specs.Output.{Done};
ghost use Rattle.plan.specs.Ranged.{Ranged};
ghost use Rattle.emit_plan.specs.Plans.{HoldsOf, emitted_of};

use emit_plan::{Inner, Siblings, Walk};
use output::writer::Writer;
use passes::states::State;
use plan::place::program;
use walkers::list;

// The whole result, from row 0 on. Over no bytes it only counts.
pub fn emit(walk: &Walk<'_, '_>, out: &mut [u8]) -> usize
    requires ranged { Ranged walk.now.rows.now 0 (rows_in walk.now.rows.now) }
    requires holds { HoldsOf walk.now }
    requires walk_bound { size (emitted_of walk.now) < 2 ^ 32 }
    ensures { Done out.old 0 (emitted_of walk.now) result out.new }
{
    let n = walk.rows.len() / 16;
    let start = program();
    let all = Inner {
        walk,
        siblings: Siblings {
            from: 0,
            end: n,
            bind: 0,
            state: State::Copy,
            one: start,
            more: start,
        },
    };
    let mut w = Writer::new(out, 0);
    list(all, &mut w);
    w.finish()
}
