// The refusals (document 01, "Refused calls", and the requests of document 02), each with its number.
ghost use Rattle.std.specs.Prelude.{◌≡◌};
ghost use Rattle.record.specs.Answer.{refusal_number};

// Why a call is refused.
#[derive(Clone, Copy, Debug, PartialEq, Eq)]
pub enum Refusal {
    WrongSize = 1,
    Unsound = 2,
    NoSuchSeat = 3,
    SeatTaken = 4,
    NumberInUse = 5,
    NoContact = 6,
    InClearing = 7,
    EmptySeat = 8,
    AlreadyLeaving = 9,
    NoSuchMessage = 10,
    MessagesLeft = 11,
    NoSuchLevel = 12,
    Unsettled = 13,
    NotReserved = 14,
    SameLot = 15,
}

impl From<Refusal> for u8 {
    ghost from_gives = { λ refusal number. number ≡ refusal_number refusal };

    fn from(refusal: Refusal) -> u8 {
        refusal as u8
    }
}
