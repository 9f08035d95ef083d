// The places in which a row can stand under its parent.
ghost use Rattle.std.specs.Prelude.{◌≡◌, ◌<◌};
ghost use Rattle.grammar.specs.Codes.{place_number, placed};

#[derive(Clone, Copy, Debug, PartialEq, Eq)]
pub enum Place {
    Nowhere = 0,
    Top = 1,
    Statement = 2,
    Expression = 3,
    // An expression or Super.
    Object = 4,
    Declarator = 5,
    Params = 6,
    Body = 7,
    // A Method, Field or StaticBlock.
    Member = 8,
    Target = 9,
    // Under Other, Opaque, Object and Target.
    Other = 10,
    Opaque = 11,
    Property = 12,
    Assigned = 13,
    // A Function that is no constructor, and one that may be.
    Function = 14,
    Constructor = 15,
}

impl Place {
    // Its number, which is kept as a byte for each row of a table.
    pub fn number(self) -> u8
        ensures { (result ≡ place_number self) × (result < 16) }
    {
        self as u8
    }
}

impl From<u8> for Place {
    ghost from_gives = { λ n r. place_number r ≡ placed n };

    fn from(n: u8) -> Place {
        match n {
            1 => Place::Top,
            2 => Place::Statement,
            3 => Place::Expression,
            4 => Place::Object,
            5 => Place::Declarator,
            6 => Place::Params,
            7 => Place::Body,
            8 => Place::Member,
            9 => Place::Target,
            10 => Place::Other,
            11 => Place::Opaque,
            12 => Place::Property,
            13 => Place::Assigned,
            14 => Place::Function,
            15 => Place::Constructor,
            _ => Place::Nowhere,
        }
    }
}
