// The rows that no step changes where they stand: most of a table. Both walks pass them without an act.
ghost use Rattle.std.specs.Prelude.{◌≡◌, Bool, true};
ghost use Rattle.grammar.specs.Codes.{kind_number};
ghost use Rattle.acts.specs.View.{switches_of};
ghost use Rattle.plan.specs.Placing.{place_of};
ghost use Rattle.plan.specs.Staying.{is_plain, Stays};

use crate::place::Place;
use acts::switches::Switches;
use grammar::kind::Kind;
use passes::slots::Slot;
use steps::has_bit;

// Whether no rule of modules 3 to 8 is about a row of that kind.
fn is_plain(kind: Kind) -> bool
    ensures { result ≡ is_plain (kind_number kind) }
{
    matches!(
        kind,
        Kind::ExprStmt
            | Kind::Var
            | Kind::Declarator
            | Kind::Return
            | Kind::Block
            | Kind::Other
            | Kind::Opaque
            | Kind::Params
            | Kind::Class
            | Kind::Object
            | Kind::Sequence
            | Kind::Arguments
    )
}

// Whether a row of that kind and attr at `q` is known to stay as it is, its children standing where it stands. The kind is the table's number:
// what is promised is so of the number that is handed on, and from a `Kind` both walks would have to show that it is one of the list to have it back.
pub fn stays(switches: Switches, q: Place, kind: usize, attr: usize) -> bool
    ensures { result ≡ true → Stays (switches_of switches) (place_of q) kind attr }
{
    let spot = q.spot();
    let context = spot.context;
    let slot = spot.slot;
    if slot == Slot::Wrapped {
        return false;
    }
    let row = Kind::from(kind);
    match row {
        Kind::This => !context.takes_this,
        Kind::Super => !(slot == Slot::Dropped),
        Kind::Ident => !(switches.is_async_only() & context.takes_arguments),
        Kind::Member | Kind::Computed | Kind::Call | Kind::Assign => !context.takes_super,
        Kind::Property => !has_bit(2, attr),
        _ => is_plain(row),
    }
}
