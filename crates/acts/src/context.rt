// What modules 3, 4 and 5 say of a place, carried inward by value.
ghost use Rattle.std.specs.Prelude.{◌≡◌, Bool, ℕ};
ghost use Rattle.steps.specs.Paths.{Step.in_params, Step.in_body, Step.in_arrow, Step.in_value, Step.in_static};
ghost use Rattle.steps.specs.Context.{enter, start};
ghost use Rattle.acts.specs.View.{switches_of, context_of};

use crate::switches::Switches;

// Three flags and three rows, not three pairs: the rules set them apart from one another, as `in_value` the
// flag of `this` alone and `in_static` the row of `super` alone.
#[derive(Clone, Copy)]
pub struct Context {
    pub this_at: usize,
    pub super_at: usize,
    pub arguments_at: usize,
    pub takes_this: bool,
    pub takes_super: bool,
    pub takes_arguments: bool,
}

// At Program.
pub fn at_program() -> Context
    ensures { context_of result ≡ start }
{
    Context {
        takes_this: false,
        this_at: 0,
        takes_super: false,
        super_at: 0,
        takes_arguments: false,
        arguments_at: 0,
    }
}

impl Context {
    // In the Params of the Function at that row.
    pub fn in_params(self, switches: Switches, row: usize, attr: usize, method: bool) -> Context
        ensures { context_of result ≡ enter (switches_of switches) (in_params row attr method) (context_of self) }
    {
        if method {
            return Context {
                takes_this: false,
                this_at: row,
                takes_super: switches.moves_function(attr),
                super_at: row,
                takes_arguments: self.takes_arguments,
                arguments_at: row,
            };
        }
        Context {
            takes_this: false,
            this_at: row,
            takes_super: self.takes_super,
            super_at: self.super_at,
            takes_arguments: self.takes_arguments,
            arguments_at: row,
        }
    }

    // In its Body.
    pub fn in_body(self, switches: Switches, row: usize, attr: usize, method: bool) -> Context
        ensures { context_of result ≡ enter (switches_of switches) (in_body row attr method) (context_of self) }
    {
        if method {
            let moved = switches.moves_function(attr);
            return Context {
                takes_this: moved,
                this_at: row,
                takes_super: moved,
                super_at: row,
                takes_arguments: moved,
                arguments_at: row,
            };
        }
        Context {
            takes_this: false,
            this_at: row,
            takes_super: self.takes_super,
            super_at: self.super_at,
            takes_arguments: false,
            arguments_at: row,
        }
    }

    // In an Arrow.
    pub fn in_arrow(self, switches: Switches, attr: usize) -> Context
        ensures { context_of result ≡ enter (switches_of switches) (in_arrow attr) (context_of self) }
    {
        let only = switches.is_async_only();
        let moved = switches.moves_arrow(attr);
        Context {
            takes_this: !only | moved | self.takes_this,
            this_at: self.this_at,
            takes_super: only & moved | self.takes_super,
            super_at: self.super_at,
            takes_arguments: moved | self.takes_arguments,
            arguments_at: self.arguments_at,
        }
    }

    // In the value of a Field.
    pub fn in_value(mut self, switches: Switches, row: usize) -> Context
        ensures { context_of result ≡ enter (switches_of switches) (in_value row) (context_of self) }
    {
        self.takes_this = false;
        self
    }

    // In the StaticBlock at that row.
    pub fn in_static(mut self, switches: Switches, row: usize) -> Context
        ensures { context_of result ≡ enter (switches_of switches) (in_static row) (context_of self) }
    {
        self.takes_this = false;
        self.this_at = row;
        self.super_at = row;
        self
    }
}
