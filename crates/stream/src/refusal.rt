// Why a call was refused, and the number of each reason.
ghost use Rattle.std.specs.Prelude.{◌≡◌};
ghost use Rattle.stream.specs.Refusals.{number_of, Numbers};

use crate::fault::Fault;

// Why a call was refused. Number 7 is no variant: `Answer::Malformed` stands for it, and says where.
#[derive(Clone, Copy, PartialEq, Eq, Debug)]
pub enum Refusal {
    // the connection number is above 15, or, except for open, has no life
    NoLife = 1,
    // open: the connection number has a life
    Taken = 2,
    // line: the buffer is shorter than the longest answer, 37 bytes
    ShortBuffer = 3,
    // line: the handshake is over
    AlreadyBegun = 4,
    // line: BEGIN while waiting for AUTH
    EarlyBegin = 5,
    // message: the life has not begun
    NotBegun = 6,
    // message: no unique name yet, and not a call of the bus's Hello
    NoName = 8,
    // message: a call, a return or an error without a destination
    NoDestination = 9,
    // message: a reply that ends no pending call
    NoPendingCall = 10,
    // message: a call that wants a reply, and no place is free
    NoPlace = 11,
    // message: a call that wants a reply, and its serial is pending for the caller
    SerialPending = 12,
    // tick: a time below the bus's, or above 2^48 - 1
    BadTime = 13,
    // take: the buffer is shorter than the oldest message
    ShortTake = 14,
}

impl From<Refusal> for u8 {
    ghost from_gives = { λ r n. n ≡ number_of r };

    fn from(refusal: Refusal) -> u8 {
        refusal as u8
    }
}

impl TryFrom<u8> for Refusal {
    type Error = Fault;

    ghost try_from_gives = { Numbers };

    fn try_from(number: u8) -> Result<Refusal, Fault> {
        match number {
            1 => Ok(Refusal::NoLife),
            2 => Ok(Refusal::Taken),
            3 => Ok(Refusal::ShortBuffer),
            4 => Ok(Refusal::AlreadyBegun),
            5 => Ok(Refusal::EarlyBegin),
            6 => Ok(Refusal::NotBegun),
            8 => Ok(Refusal::NoName),
            9 => Ok(Refusal::NoDestination),
            10 => Ok(Refusal::NoPendingCall),
            11 => Ok(Refusal::NoPlace),
            12 => Ok(Refusal::SerialPending),
            13 => Ok(Refusal::BadTime),
            14 => Ok(Refusal::ShortTake),
            _ => Err(Fault::BadNumber),
        }
    }
}
