// The rows that modules 7 and 8 put in. Each function writes them behind what the writer has put.

#![tactic(auto)]

ghost use Rattle.std.specs.Prelude.{◌≡◌, ◌+◌, ◌<◌, ◌^◌};
ghost use Rattle.forest.specs.Forest.{Rows.none, size};
ghost use Rattle.steps.specs.AfterSuper.{assignment};
ghost use Rattle.steps.specs.TopInsertion.{this_decl, arguments_decl, access_row};
ghost use Rattle.uses.specs.Uses.{access_number};
ghost use Rattle.inserted.specs.Insertions.{param_if, params_row, body_row, accessor_of, accessor_decl};
ghost use Rattle.output.specs.Held.{Puts};

use grammar::kind::Kind;
use output::writer::Writer;
use uses::Access;

// `captured = this`, where `b` is the number of the binding.
pub fn assignment(w: &mut Writer<'_>, b: u32)
    requires { w.old.at + 4 < 2 ^ 32 }
    ensures same_reference { w.new.rows.ghost_name ≡ w.old.rows.ghost_name }
    ensures rows { Puts w.old (assignment b) w.new }
{
    let row = w.at;
    w.append(Kind::Assign as u32, 0, 0, 0);
    w.nested(Kind::Target as u32, 0, 0, Kind::Ident as u32, 1, b);
    w.leaf(Kind::This as u32, 0, 0);
    w.close(row);
}

// The Declarator of the captured `this`, with no initialiser where `late`; none where `b` is 0.
pub fn this_declarator(w: &mut Writer<'_>, b: u32, late: bool)
    requires { w.old.at + size (this_decl b late) < 2 ^ 32 }
    ensures same_reference { w.new.rows.ghost_name ≡ w.old.rows.ghost_name }
    ensures rows { Puts w.old (this_decl b late) w.new }
{
    if b == 0 {
        return;
    }
    if late {
        return w.leaf(Kind::Declarator as u32, 1, b);
    }
    w.nested(Kind::Declarator as u32, 1, b, Kind::This as u32, 0, 0);
}

// The Declarator of the captured `arguments`, guarded at Program; none where `b` is 0.
pub fn arguments_declarator(w: &mut Writer<'_>, b: u32, guarded: bool)
    requires { w.old.at + size (arguments_decl b guarded none) < 2 ^ 32 }
    ensures same_reference { w.new.rows.ghost_name ≡ w.old.rows.ghost_name }
    ensures rows { Puts w.old (arguments_decl b guarded none) w.new }
{
    if b == 0 {
        return;
    }
    if guarded {
        return w.nested(Kind::Declarator as u32, 1, b, Kind::Arguments as u32, 1, 0);
    }
    w.nested(Kind::Declarator as u32, 1, b, Kind::Arguments as u32, 0, 0);
}

// `super.p`, where `x` is the number of p's name, or `super[prop]` where `x` is 0 and prop is binding `b`.
pub fn access_row(w: &mut Writer<'_>, x: u32, b: u32)
    requires { w.old.at + size (access_row x b none) < 2 ^ 32 }
    ensures same_reference { w.new.rows.ghost_name ≡ w.old.rows.ghost_name }
    ensures rows { Puts w.old (access_row x b none) w.new }
{
    if x == 0 {
        let row = w.at;
        w.append(Kind::Computed as u32, 0, 0, 0);
        w.leaf(Kind::Super as u32, 0, 0);
        w.leaf(Kind::Ident as u32, 1, b);
        return w.close(row);
    }
    w.nested(Kind::Member as u32, 0, x, Kind::Super as u32, 0, 0);
}

// The Declarator of a param, where there is one.
fn param_if(w: &mut Writer<'_>, yes: bool, b: u32)
    requires { w.old.at + size (param_if yes b) < 2 ^ 32 }
    ensures same_reference { w.new.rows.ghost_name ≡ w.old.rows.ghost_name }
    ensures rows { Puts w.old (param_if yes b) w.new }
{
    if yes {
        w.leaf(Kind::Declarator as u32, 1, b);
    }
}

// An accessor: what it gives access to, the number of its property's name or 0, and the numbers of its params, each looked at
// where there is such a param.
#[derive(Clone, Copy)]
pub struct Accessor {
    pub access: Access,
    pub property: u32,
    pub prop: u32,
    pub value: u32,
}

impl Accessor {
    // Its Params.
    fn params_row(self, w: &mut Writer<'_>)
        requires { w.old.at + size (params_row (access_number self.access) self.property self.prop self.value) < 2 ^ 32 }
        ensures same_reference { w.new.rows.ghost_name ≡ w.old.rows.ghost_name }
        ensures rows { Puts w.old (params_row (access_number self.access) self.property self.prop self.value) w.new }
    {
        let row = w.at;
        w.append(Kind::Params as u32, 0, 0, 0);
        param_if(w, self.property == 0, self.prop);
        param_if(w, self.access == Access::Set, self.value);
        w.close(row);
    }

    // What it gives or sets.
    fn body_row(self, w: &mut Writer<'_>)
        requires { w.old.at + size (body_row (access_number self.access) self.property self.prop self.value) < 2 ^ 32 }
        ensures same_reference { w.new.rows.ghost_name ≡ w.old.rows.ghost_name }
        ensures rows { Puts w.old (body_row (access_number self.access) self.property self.prop self.value) w.new }
    {
        match self.access {
            Access::Get => access_row(w, self.property, self.prop),
            Access::Set => {
                let row = w.at;
                w.append(Kind::Assign as u32, 0, 0, 0);
                let target = w.at;
                w.append(Kind::Target as u32, 0, 0, 0);
                access_row(w, self.property, self.prop);
                w.close(target);
                w.leaf(Kind::Ident as u32, 1, self.value);
                w.close(row);
            }
        }
    }

    // Its Arrow.
    pub fn arrow(self, w: &mut Writer<'_>)
        requires { w.old.at + size (accessor_of (access_number self.access) self.property self.prop self.value) < 2 ^ 32 }
        ensures same_reference { w.new.rows.ghost_name ≡ w.old.rows.ghost_name }
        ensures rows { Puts w.old (accessor_of (access_number self.access) self.property self.prop self.value) w.new }
    {
        let row = w.at;
        w.append(Kind::Arrow as u32, 2, 0, 0);
        self.params_row(w);
        self.body_row(w);
        w.close(row);
    }

    // Its Declarator, where `b` is the number of its binding.
    pub fn declarator(self, w: &mut Writer<'_>, b: u32)
        requires { w.old.at + size (accessor_decl b (access_number self.access) self.property self.prop self.value) < 2 ^ 32 }
        ensures same_reference { w.new.rows.ghost_name ≡ w.old.rows.ghost_name }
        ensures rows { Puts w.old (accessor_decl b (access_number self.access) self.property self.prop self.value) w.new }
    {
        let row = w.at;
        w.append(Kind::Declarator as u32, 1, b, 0);
        self.arrow(w);
        w.close(row);
    }
}
