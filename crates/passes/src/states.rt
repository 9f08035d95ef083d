// The states of module 7.
ghost use Rattle.std.specs.Prelude.{◌≡◌};
ghost use Rattle.passes.specs.View.{state_number};

// What is done in a list of rows.
#[derive(Clone, Copy, PartialEq, Eq)]
pub enum State {
    // A statement list in which no direct super call was met yet.
    List,
    // Visited.
    Visit,
    // Not visited.
    Copy,
    // The call of a direct super statement.
    Direct,
    // Visited, what follows is not: a member's computed key.
    Once,
    // Visited, then members: a Class with heritage.
    Heritage,
    // The members of a Class.
    Members,
    // A number that is in no list, by how far it is above 7: its rows are visited, and nothing is met in them.
    Unlisted(usize),
}

impl From<usize> for State {
    ghost from_gives = { λ n state. state_number state ≡ n };

    fn from(n: usize) -> State {
        match n {
            0 => State::List,
            1 => State::Visit,
            2 => State::Copy,
            3 => State::Direct,
            4 => State::Once,
            5 => State::Heritage,
            6 => State::Members,
            _ => State::Unlisted(n - 7),
        }
    }
}
