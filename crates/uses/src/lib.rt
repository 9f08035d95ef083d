// What a binding is for, which the first word of its record says.

#![tactic(auto)]

ghost use Rattle.std.specs.Prelude.{◌≡◌, cond, eqb};
ghost use Rattle.uses.specs.Uses.{use_number, capture_number, access_number, Decodes};

// A capture of `this` or of `arguments`, an accessor that gets or sets, a parameter of one for a computed
// property or for the value.
#[derive(Clone, Copy, PartialEq, Eq)]
pub enum Use {
    This = 1,
    Arguments = 2,
    Get = 3,
    Set = 4,
    Prop = 5,
    Value = 6,
}

// What is captured.
#[derive(Clone, Copy, PartialEq, Eq)]
pub enum Capture {
    This,
    Arguments,
}

// What an accessor does.
#[derive(Clone, Copy, PartialEq, Eq)]
pub enum Access {
    Get,
    Set,
}

// A number that stands for no use.
#[derive(Clone, Copy)]
pub struct UnknownUse;

impl Use {
    // The word of a record.
    pub fn number(self) -> u32
        ensures { result ≡ use_number self }
    {
        self as u32
    }
}

impl TryFrom<usize> for Use {
    type Error = UnknownUse;

    ghost try_from_gives = { Decodes };

    fn try_from(number: usize) -> Result<Use, UnknownUse> {
        match number {
            1 => Ok(Use::This),
            2 => Ok(Use::Arguments),
            3 => Ok(Use::Get),
            4 => Ok(Use::Set),
            5 => Ok(Use::Prop),
            6 => Ok(Use::Value),
            _ => Err(UnknownUse),
        }
    }
}

impl From<Capture> for Use {
    ghost from_gives = { λ capture usage. use_number usage ≡ capture_number capture };

    fn from(capture: Capture) -> Use {
        match capture {
            Capture::This => Use::This,
            Capture::Arguments => Use::Arguments,
        }
    }
}

impl From<Access> for Use {
    ghost from_gives = { λ access usage. use_number usage ≡ access_number access };

    fn from(access: Access) -> Use {
        match access {
            Access::Get => Use::Get,
            Access::Set => Use::Set,
        }
    }
}

// Of a number that is no capture's: `arguments`, as the code had it when it took numbers.
impl From<usize> for Capture {
    ghost from_gives = { λ n capture. capture_number capture ≡ cond (eqb n 1) 1 2 };

    fn from(n: usize) -> Capture {
        match n {
            1 => Capture::This,
            _ => Capture::Arguments,
        }
    }
}

// Of a number that is no accessor's: get.
impl From<usize> for Access {
    ghost from_gives = { λ n access. access_number access ≡ cond (eqb n 4) 4 3 };

    fn from(n: usize) -> Access {
        match n {
            4 => Access::Set,
            _ => Access::Get,
        }
    }
}
