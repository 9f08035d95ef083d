// The grammar of the 28 kinds: what stands where, attr, name, number of children.

#![tactic(auto)]

pub mod kind;
pub mod place;

ghost use Rattle.std.specs.Prelude.{◌≡◌, ℕ};
ghost use Rattle.grammar.specs.Codes.{kind_number, place_number};
ghost use Rattle.grammar.specs.Grammar.{place_of, expression, statement_kind, declaration_ok, constructor_ok, attr_ok, fits, count_ok, made_row, name_ok};

use crate::kind::Kind;
use crate::place::Place;

// Statements by their kind alone.
fn is_statement(kind: Kind) -> bool
    ensures { result ≡ statement_kind (kind_number kind) }
{
    matches!(
        kind,
        Kind::ExprStmt | Kind::Var | Kind::Return | Kind::Block | Kind::Other
    )
}

fn is_expression(kind: Kind) -> bool
    ensures { result ≡ expression (kind_number kind) }
{
    matches!(
        kind,
        Kind::Opaque
            | Kind::This
            | Kind::Ident
            | Kind::Member
            | Kind::Computed
            | Kind::Call
            | Kind::Assign
            | Kind::Arrow
            | Kind::Function
            | Kind::Class
            | Kind::Object
            | Kind::Sequence
            | Kind::Arguments
    )
}

// What may stand in a place, by its kind.
pub fn fits_in(place: Place, kind: Kind) -> bool
    ensures { result ≡ fits (place_number place) (kind_number kind) }
{
    match place {
        Place::Nowhere => false,
        Place::Top => matches!(kind, Kind::Program),
        Place::Statement => { is_statement(kind) | matches!(kind, Kind::Function | Kind::Class) }
        Place::Expression => is_expression(kind),
        Place::Object => is_expression(kind) | matches!(kind, Kind::Super),
        Place::Declarator => matches!(kind, Kind::Declarator),
        Place::Params => matches!(kind, Kind::Params),
        Place::Body => matches!(kind, Kind::Body),
        Place::Member => matches!(kind, Kind::Method | Kind::Field | Kind::StaticBlock),
        Place::Target => matches!(kind, Kind::Target),
        Place::Other => { is_statement(kind) | is_expression(kind) | matches!(kind, Kind::Target) }
        Place::Opaque => is_expression(kind) | matches!(kind, Kind::Target),
        Place::Property => is_expression(kind) | matches!(kind, Kind::Property),
        Place::Assigned => {
            matches!(
                kind,
                Kind::Opaque | Kind::Ident | Kind::Member | Kind::Computed
            )
        }
        Place::Function => matches!(kind, Kind::Function),
        Place::Constructor => matches!(kind, Kind::Function),
    }
}

fn declaration_ok(a: usize, place: Place) -> bool
    ensures { result ≡ declaration_ok a (place_number place) }
{
    let declares = a / 8 % 2 == 1;
    match place {
        Place::Statement => declares,
        Place::Other => true,
        _ => !declares,
    }
}

fn constructor_ok(a: usize, place: Place) -> bool
    ensures { result ≡ constructor_ok a (place_number place) }
{
    !(a / 4 % 2 == 1) | ((a == 4) & matches!(place, Place::Constructor))
}

// The attrs of a kind that is in the list.
pub fn attr_ok(kind: Kind, a: usize, place: Place) -> bool
    ensures { result ≡ attr_ok (kind_number kind) a (place_number place) }
{
    match kind {
        Kind::Unlisted => false,
        Kind::Var => a < 3,
        Kind::Declarator | Kind::Block | Kind::Ident | Kind::Member | Kind::Arguments => a < 2,
        Kind::Other | Kind::Opaque => true,
        Kind::Assign => a < 16,
        Kind::Arrow | Kind::Method | Kind::Property => a < 4,
        Kind::Function => (a < 16) & declaration_ok(a, place) & constructor_ok(a, place),
        Kind::Class => {
            (a < 10) & !(a / 2 % 2 == 1) & !(a / 4 % 2 == 1) & declaration_ok(a, place)
        }
        Kind::Field => a < 8,
        _ => a == 0,
    }
}

// How many children a row has.
pub fn count_ok(kind: Kind, a: usize, count: usize) -> bool
    ensures { result ≡ count_ok (kind_number kind) a count }
{
    match kind {
        Kind::Unlisted => false,
        Kind::Program | Kind::Block | Kind::Body | Kind::StaticBlock => true,
        Kind::Var | Kind::Other | Kind::Opaque | Kind::Params | Kind::Object => true,
        Kind::ExprStmt | Kind::Member | Kind::Target => count == 1,
        Kind::Declarator | Kind::Return => count < 2,
        Kind::This | Kind::Super | Kind::Ident | Kind::Arguments => count == 0,
        Kind::Computed | Kind::Assign | Kind::Arrow | Kind::Function => count == 2,
        Kind::Call => 0 < count,
        Kind::Class => !(a % 2 == 1) | (0 < count),
        Kind::Method | Kind::Property => count == 1 + a % 2,
        Kind::Field => count == a % 2 + a / 4 % 2,
        Kind::Sequence => 1 < count,
    }
}

// A row that refusal 5 names.
pub fn made_row(kind: Kind, a: usize) -> bool
    ensures { result ≡ made_row (kind_number kind) a }
{
    match kind {
        Kind::Declarator | Kind::Ident | Kind::Member => a == 1,
        Kind::Arguments => true,
        _ => false,
    }
}

// Whether a row may have that name, of so many names.
pub fn name_ok(kind: Kind, a: usize, name: usize, names: usize) -> bool
    ensures { result ≡ name_ok (kind_number kind) a name names }
{
    match kind {
        Kind::Declarator | Kind::Ident | Kind::Member => (a == 1) | ((0 < name) & (name <= names)),
        Kind::Function | Kind::Class => name <= names,
        Kind::Other | Kind::Opaque | Kind::Arguments => true,
        _ => name == 0,
    }
}

// The place of the child at position pos under a row of that kind and attr.
#[tactic(auto, unfolding(crate::specs::Grammar::place_of, crate::specs::Grammar::place_in_function, crate::specs::Grammar::place_in_class))]
pub fn place_of(kind: Kind, a: usize, pos: usize) -> Place
    ensures { place_number result ≡ place_of (kind_number kind) a pos }
{
    match kind {
        Kind::Program | Kind::Block | Kind::Body | Kind::StaticBlock => Place::Statement,
        Kind::ExprStmt | Kind::Declarator | Kind::Return | Kind::Sequence => Place::Expression,
        Kind::Var | Kind::Params => Place::Declarator,
        Kind::Other => Place::Other,
        Kind::Opaque => Place::Opaque,
        Kind::Member | Kind::Computed | Kind::Call if pos == 0 => Place::Object,
        Kind::Assign if pos == 0 => Place::Target,
        Kind::Member | Kind::Computed | Kind::Call | Kind::Assign => Place::Expression,
        Kind::Arrow | Kind::Function if pos == 0 => Place::Params,
        Kind::Arrow if a / 2 % 2 == 1 => Place::Expression,
        Kind::Arrow | Kind::Function => Place::Body,
        Kind::Class | Kind::Method | Kind::Property if (a % 2 == 1) & (pos == 0) => {
            Place::Expression
        }
        Kind::Class => Place::Member,
        Kind::Method | Kind::Property if a / 2 % 2 == 1 => Place::Function,
        Kind::Method => Place::Constructor,
        Kind::Field | Kind::Property => Place::Expression,
        Kind::Object => Place::Property,
        Kind::Target => Place::Assigned,
        _ => Place::Nowhere,
    }
}
