// The rows right below a row: its first child, and that one's first child in turn.
ghost use Rattle.std.specs.Prelude.{◌≡◌, ◌<◌, ◌&&◌, ◌||◌, eqb};
ghost use Rattle.grammar.specs.Kinds.{Call, Super, Member, Computed};
ghost use Rattle.names.specs.Words.{words, kind_at, name_at};
ghost use Rattle.steps.specs.Super.{first_super, first_name, first_inside};
ghost use Rattle.steps.specs.AfterSuper.{super_call};
ghost use Rattle.below.specs.Below.{children, property_of, Seen};
ghost use Rattle.below.specs.First.{FirstOf};

use crate::{Below, Node, end_at, kind_at, name_at};
use grammar::kind::Kind;

impl<'a> Node<'a> {
    // Its first child, if it has one.
    fn first(self) -> Option<Node<'a>>
        ensures { FirstOf self.entry.rows.now self.entry.at result }
    {
        let rows = self.rows;
        let at = self.at + 1;
        if at < end_at(rows, self.at) {
            return Some(Node { rows, at });
        }
        None
    }

    // Its name.
    fn name(self) -> usize
        ensures { (result ≡ name_at (words self.entry.rows.now) self.entry.at) × (result < 4294967296) }
    {
        name_at(self.rows, self.at)
    }

    // Whether it is a Super.
    fn is_super(self) -> bool
        ensures { result ≡ eqb (kind_at (words self.entry.rows.now) self.entry.at) Super }
    {
        matches!(Kind::from(kind_at(self.rows, self.at)), Kind::Super)
    }

    // Whether its first child is a Super.
    pub fn over_super(self) -> bool
        ensures { result ≡ first_super (children (words self.entry.rows.now) self.entry.at) }
    {
        self.first().is_some_and(Node::is_super)
    }

    // Whether it is `super(..)`.
    fn is_super_call(self) -> bool
        ensures { result ≡ (eqb (kind_at (words self.entry.rows.now) self.entry.at) Call && first_super (children (words self.entry.rows.now) self.entry.at)) }
    {
        match Kind::from(kind_at(self.rows, self.at)) {
            Kind::Call => self.over_super(),
            _ => false,
        }
    }

    // Whether it is `super.p` or `super[k]`.
    fn is_access(self) -> bool
        ensures { result ≡ ((eqb (kind_at (words self.entry.rows.now) self.entry.at) Member || eqb (kind_at (words self.entry.rows.now) self.entry.at) Computed)
            && first_super (children (words self.entry.rows.now) self.entry.at)) }
    {
        match Kind::from(kind_at(self.rows, self.at)) {
            Kind::Member | Kind::Computed => self.over_super(),
            _ => false,
        }
    }

    // The name of its first child, where that is `super.p` or `super[k]`.
    fn property(self) -> Option<usize>
        ensures { result ≡ property_of (children (words self.entry.rows.now) self.entry.at) }
    {
        match self.first() {
            Some(child) if child.is_access() => Some(child.name()),
            _ => None,
        }
    }

    // The name of its first child, 0 where it has none, as the definition has it. No Option: `deep_name` and `look` alone ask, which promise
    // of this number that it is small, `plan` too, so that a None would be turned back into 0 there.
    fn first_name(self) -> usize
        ensures { (result ≡ first_name (children (words self.entry.rows.now) self.entry.at)) × (result < 4294967296) }
    {
        self.first().map_or(0, Node::name)
    }

    // The same of its first child.
    pub fn deep_name(self) -> usize
        ensures { (result ≡ first_name (first_inside (children (words self.entry.rows.now) self.entry.at))) × (result < 4294967296) }
    {
        self.first().map_or(0, Node::first_name)
    }

    // Whether its first child is `super(..)`.
    pub fn super_call(self) -> bool
        ensures { result ≡ super_call (children (words self.entry.rows.now) self.entry.at) }
    {
        self.first().is_some_and(Node::is_super_call)
    }

    // What a walk asks of the rows below it, by one look at its first child.
    pub fn look(self) -> Below
        ensures { Seen (children (words self.entry.rows.now) self.entry.at) result }
    {
        match self.first() {
            Some(child) => Below {
                first_super: child.is_super(),
                first_access: child.is_access(),
                super_call: child.is_super_call(),
                deep_access: child.property(),
                deep_name: child.first_name(),
            },
            None => Below {
                first_super: false,
                first_access: false,
                super_call: false,
                deep_access: None,
                deep_name: 0,
            },
        }
    }
}
