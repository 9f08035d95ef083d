// The kinds of rows.
ghost use Rattle.std.specs.Prelude.{◌≡◌};
ghost use Rattle.grammar.specs.Codes.{kind_number, listed};

// What a row is. Its word in a table may hold any number: those that are not in the list are Unlisted, as 7 is.
#[derive(Clone, Copy, Debug, PartialEq, Eq)]
pub enum Kind {
    Program = 0,
    ExprStmt = 1,
    Var = 2,
    Declarator = 3,
    Return = 4,
    Block = 5,
    Other = 6,
    Unlisted = 7,
    Opaque = 8,
    This = 9,
    Super = 10,
    Ident = 11,
    Member = 12,
    Computed = 13,
    Call = 14,
    Assign = 15,
    Arrow = 16,
    Function = 17,
    Params = 18,
    Body = 19,
    Class = 20,
    Method = 21,
    Field = 22,
    StaticBlock = 23,
    Object = 24,
    Property = 25,
    Sequence = 26,
    Arguments = 27,
    Target = 28,
}

impl From<usize> for Kind {
    ghost from_gives = { λ k r. kind_number r ≡ listed k };

    fn from(k: usize) -> Kind {
        match k {
            0 => Kind::Program,
            1 => Kind::ExprStmt,
            2 => Kind::Var,
            3 => Kind::Declarator,
            4 => Kind::Return,
            5 => Kind::Block,
            6 => Kind::Other,
            8 => Kind::Opaque,
            9 => Kind::This,
            10 => Kind::Super,
            11 => Kind::Ident,
            12 => Kind::Member,
            13 => Kind::Computed,
            14 => Kind::Call,
            15 => Kind::Assign,
            16 => Kind::Arrow,
            17 => Kind::Function,
            18 => Kind::Params,
            19 => Kind::Body,
            20 => Kind::Class,
            21 => Kind::Method,
            22 => Kind::Field,
            23 => Kind::StaticBlock,
            24 => Kind::Object,
            25 => Kind::Property,
            26 => Kind::Sequence,
            27 => Kind::Arguments,
            28 => Kind::Target,
            _ => Kind::Unlisted,
        }
    }
}
