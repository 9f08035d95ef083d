// Module 8, Top insertion: the Var that goes first in a frame, written from the bindings' array.

#![tactic(auto)]

ghost use Rattle.std.specs.Prelude.{◌≡◌, ◌+◌, ◌<◌, ◌^◌};
ghost use Rattle.grammar.specs.Kinds.{Var};
ghost use Rattle.forest.specs.Forest.{Rows.none, Rows.node, size};
ghost use Rattle.steps.specs.TopInsertion.{var_first};
ghost use Rattle.output.specs.Held.{Puts};
ghost use Rattle.insertion.specs.Declarations.{accessors_in, decls_in, param_after, bare_at};

use bindings::frame::Frame;
use bindings::view::Bindings;
use grammar::kind::Kind;
use inserted::Accessor;
use output::writer::Writer;
use uses::Access;

// The parameter behind `p` in its chain where `p` is taken, else `p`; 0 is none.
fn after(bindings: Bindings<'_>, p: u32, taken: bool) -> u32
    requires { p < bindings.cap }
    ensures { result ≡ param_after bindings.entry.made.now bindings.entry.cap p taken }
{
    if taken {
        if p == 0 {
            return 0;
        }
        return bindings.next(p);
    }
    p
}

// The Declarators of a frame's accessors, by first use: along the chain of accessors, and beside it
// along that of their parameters.
fn accessor_declarators(frame: Frame<'_>, w: &mut Writer<'_>)
    requires { w.old.at + size (accessors_in frame none) < 2 ^ 32 }
    ensures same_reference { w.new.rows.ghost_name ≡ w.old.rows.ghost_name }
    ensures rows { Puts w.old (accessors_in frame.entry none) w.new }
{
    let all = frame.bindings;
    let mut b = frame.first_accessor();
    let mut p = frame.first_param();
    // A loop by hand: two chains of numbers side by side, no counted index, for which an iterator would be no plainer.
    while b != 0 {
        let record = all.record(b);
        let access = Access::from(record.usage as usize);
        let v = after(all, p, record.property == 0);
        let accessor = Accessor {
            access,
            property: record.property,
            prop: p,
            value: v,
        };
        accessor.declarator(w, b);
        p = after(all, v, access == Access::Set);
        b = all.next(b);
    }
}

// Whether the frame has no capture and no accessor.
fn is_bare(frame: Frame<'_>) -> bool
    ensures { result ≡ bare_at frame.entry.bindings.made.now frame.entry.bindings.cap frame.entry.row }
{
    (frame.this_of() == 0) & (frame.arguments_of() == 0) & (frame.first_accessor() == 0)
}

// The Declarators of a frame's Var: `arguments`, guarded at Program; the accessors; `this`, with no
// initialiser where `late`.
// Two flags, and no enum of the frame's kind: specs' `top_rows` is of every kind and slot, of a Program in the slot of a late body too, so that an
// enum would have four cases, which are these flags.
fn declarators(frame: Frame<'_>, guarded: bool, late: bool, w: &mut Writer<'_>)
    requires { w.old.at + size (decls_in frame guarded late) < 2 ^ 32 }
    ensures same_reference { w.new.rows.ghost_name ≡ w.old.rows.ghost_name }
    ensures rows { Puts w.old (decls_in frame.entry guarded late) w.new }
{
    let arguments = frame.arguments_of();
    let this = frame.this_of();
    inserted::arguments_declarator(w, arguments, guarded);
    accessor_declarators(frame, w);
    inserted::this_declarator(w, this, late);
}

// The Var with its Declarators.
fn variable_statement(frame: Frame<'_>, guarded: bool, late: bool, w: &mut Writer<'_>)
    requires { w.old.at + 1 + size (decls_in frame guarded late) < 2 ^ 32 }
    ensures same_reference { w.new.rows.ghost_name ≡ w.old.rows.ghost_name }
    ensures rows { Puts w.old (node Var 0 0 (decls_in frame.entry guarded late) none) w.new }
{
    let row = w.at;
    w.append(Kind::Var as u32, 0, 0, 0);
    declarators(frame, guarded, late, w);
    w.close(row);
}

// The Var that goes first in a frame; nothing where the frame has no capture and no accessor.
pub fn insert_variable_statement_at_the_top_of_statements(
    frame: Frame<'_>,
    guarded: bool,
    late: bool,
    w: &mut Writer<'_>,
)
    requires { w.old.at + size (var_first (decls_in frame guarded late) none) < 2 ^ 32 }
    ensures same_reference { w.new.rows.ghost_name ≡ w.old.rows.ghost_name }
    ensures rows { Puts w.old (var_first (decls_in frame.entry guarded late) none) w.new }
{
    if !is_bare(frame) {
        variable_statement(frame, guarded, late, w);
    }
}
