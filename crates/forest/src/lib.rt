// The rows one by one, over the table as a forest: what is wrong with a row, and how deep it stands.

#![tactic(auto)]

pub mod child;
pub mod depth;
pub mod faults;
pub mod told;

ghost use Rattle.std.specs.Prelude.{◌≡◌, ◌*◌, ◌≤◌, length};
ghost use Rattle.forest.specs.Faults.{fault_number};

// The first rows of some bytes, and how many they are. That there is one, and that each ends within them, is asked by the functions that
// need it and not carried here: `first_deep` and rows' `first_made` take a count of 0, and `first_fault` takes rows that end anywhere.
#[derive(Clone, Copy)]
pub struct RowBytes<'a> {
    pub bytes: &'a [u8],
    pub count: usize,
    pub ghost few: { count ≤ 16384 },
    pub ghost whole: { 16 * count ≤ length bytes.now },
}

// What is wrong with a bad row: a kind that is not in the list, an attr that the kind or its place
// does not allow, an `end` at fault, a place or a number of children that is not allowed, a name
// outside its rule. Of several the first of this list is told.
#[derive(Clone, Copy, Debug, PartialEq, Eq)]
pub enum Fault {
    Kind,
    Attr,
    End,
    Place,
    Name,
}

impl Fault {
    // The request's number of it.
    pub fn number(self) -> u32
        ensures { result ≡ fault_number self }
    {
        match self {
            Fault::Kind => 21,
            Fault::Attr => 22,
            Fault::End => 23,
            Fault::Place => 24,
            Fault::Name => 25,
        }
    }
}

// A row that breaks the grammar, and its lowest fault.
#[derive(Clone, Copy, Debug, PartialEq, Eq)]
pub struct BadRow {
    pub fault: Fault,
    pub row: usize,
}
