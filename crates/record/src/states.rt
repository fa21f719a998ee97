// The phase of a record and the state of a seat, a byte each.
ghost use Rattle.std.specs.Prelude.{◌≡◌};
ghost use Rattle.record.specs.Meaning.{phase_of, state_of, phase_byte, state_byte};
ghost use Rattle.record.specs.Code.{as_phase, as_state};

#[derive(Clone, Copy, Debug, PartialEq, Eq)]
pub enum Phase {
    Open = 0,
    Clearing = 1,
}

#[derive(Clone, Copy, Debug, PartialEq, Eq)]
pub enum State {
    Free = 0,
    Staying = 1,
    Leaving = 2,
    Reserved = 3,
}

// How many phases and states there are.
pub const PHASES: u8 = 2;

pub const STATES: u8 = 4;

impl Phase {
    // The phase of a byte, which is clearing for any byte but 0.
    pub fn of_byte(b: u8) -> Phase
        ensures { as_phase result ≡ phase_of b }
    {
        match b {
            0 => Phase::Open,
            _ => Phase::Clearing,
        }
    }
}

impl State {
    // The state of a byte; one that is none of the four is read as reserved.
    pub fn of_byte(b: u8) -> State
        ensures { as_state result ≡ state_of b }
    {
        match b {
            0 => State::Free,
            1 => State::Staying,
            2 => State::Leaving,
            _ => State::Reserved,
        }
    }
}

impl From<Phase> for u8 {
    ghost from_gives = { λ phase byte. byte ≡ phase_byte (as_phase phase) };

    fn from(phase: Phase) -> u8 {
        phase as u8
    }
}

impl From<State> for u8 {
    ghost from_gives = { λ state byte. byte ≡ state_byte (as_state state) };

    fn from(state: State) -> u8 {
        state as u8
    }
}
