// What a row is told of its owner and of how it stands, for refusal 6: the owner's sort, 4 more for
// the last child of a Method or of a Property with bit 1, 8 more for the first child of a Call. It stays
// one u16, for the stack: an array of 16,384 structs would be larger, and the laws of what rows are told
// (`told_by` of forest) are over numbers.
ghost use Rattle.std.specs.Prelude.{◌≡◌, cond, ℕ, ◌+◌, ◌*◌, ◌%◌, ◌<◌, ◌≤◌, length, get_or};
ghost use Rattle.grammar.specs.Codes.{kind_number};
ghost use Rattle.steps.specs.Mode.{bit};
ghost use Rattle.steps.specs.Refusals.{allows, Keeper.plain, Keeper.builder, Keeper.method};
ghost use Rattle.refusals.specs.Standing.{keeper_of, keeper_no, keeper_at, owner_for, stand_for, super_bad};

use grammar::kind::Kind;
use steps::{has_bit, holds_method};

// The sort of an owner.
#[derive(Clone, Copy)]
enum Sort {
    // Program, or a Function that is not method-like.
    Plain,
    // A constructor.
    Builder,
    // Another method-like Function.
    MethodLike,
    // A StaticBlock, or a Field's value.
    Member,
}

impl Sort {
    // The owner in what a row was told.
    #[tactic(auto, unfolding(crate::specs::Standing::keeper_at))]
    fn told(v: u16) -> Sort
        ensures { keeper_of result ≡ keeper_at (v % 4) }
    {
        match v % 4 {
            0 => Sort::Plain,
            1 => Sort::Builder,
            2 => Sort::MethodLike,
            _ => Sort::Member,
        }
    }

    // Whether it allows a Super: a called one wants a constructor, any other a method-like Function,
    // a StaticBlock or a Field.
    #[tactic(auto, unfolding(steps::specs::Refusals::allows))]
    fn allows(self, called: bool) -> bool
        ensures { result ≡ allows (keeper_of self) called }
    {
        match self {
            Sort::Plain => false,
            Sort::Builder => true,
            Sort::MethodLike | Sort::Member => !called,
        }
    }
}

// The sort of a Function of that attr that was told v.
fn function_sort(v: u16, a: usize) -> Sort
    ensures { keeper_of result ≡ cond (bit 4 a) builder (cond (bit 4 v) method plain) }
{
    if has_bit(4, a) {
        return Sort::Builder;
    }
    if has_bit(4, v as usize) {
        return Sort::MethodLike;
    }
    Sort::Plain
}

// The owner of the first child, or of the later ones, of a row that was told v. A Field's key has
// the Field's own.
#[tactic(auto, unfolding(crate::specs::Standing::owner_for, crate::specs::Standing::stand_at, crate::specs::Standing::keeper_no))]
fn owner(first: bool, v: u16, kind: Kind, a: usize) -> Sort
    ensures { keeper_no (keeper_of result) ≡ owner_for first v (kind_number kind) a }
{
    let keyed = first & has_bit(1, a);
    match kind {
        Kind::Program => Sort::Plain,
        Kind::Function => function_sort(v, a),
        Kind::StaticBlock => Sort::Member,
        Kind::Field if !keyed => Sort::Member,
        _ => Sort::told(v),
    }
}

// What the first child, or a later one, of a row that was told v is told.
pub fn stand(first: bool, v: u16, k: usize, a: usize) -> u16
    ensures { result ≡ stand_for first v k a }
{
    let kind = Kind::from(k);
    let last = holds_method(kind, a) & !(first & has_bit(1, a));
    let called = first & (kind == Kind::Call);
    owner(first, v, kind, a) as u16 + 4 * u16::from(last) + 8 * u16::from(called)
}

// A Super that its owner does not allow.
#[tactic(auto, unfolding(crate::specs::Standing::super_bad, crate::specs::Standing::stand_at))]
pub fn super_bad(v: u16, k: usize) -> bool
    ensures { result ≡ super_bad v k }
{
    match Kind::from(k) {
        Kind::Super => !Sort::told(v).allows(has_bit(8, v as usize)),
        _ => false,
    }
}
