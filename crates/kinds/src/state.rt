// The states of an entry, and their numbers in a message.
ghost use Rattle.std.specs.Prelude.{◌≡◌};
ghost use Rattle.kinds.specs.States.{IsStateOf, state_number};

// An entry has been set, or it has been cut.
#[derive(Clone, Copy, PartialEq, Eq, Debug)]
pub enum State {
    Set,
    Cut,
}

// A number that no state has.
#[derive(Clone, Copy, PartialEq, Eq, Debug)]
pub struct UnknownState(pub u8);

impl From<State> for u8 {
    ghost from_gives = { λ state number. number ≡ state_number state };

    fn from(state: State) -> u8 {
        match state {
            State::Set => 1,
            State::Cut => 2,
        }
    }
}

impl TryFrom<u8> for State {
    type Error = UnknownState;

    ghost try_from_gives = { IsStateOf };

    fn try_from(number: u8) -> Result<State, UnknownState> {
        match number {
            1 => Ok(State::Set),
            2 => Ok(State::Cut),
            _ => Err(UnknownState(number)),
        }
    }
}
