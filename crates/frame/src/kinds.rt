// The byte order and the type of a message.
ghost use Rattle.std.specs.Prelude.{◌≡◌};
ghost use Rattle.order.specs.Numbers.{number};
ghost use Rattle.frame.specs.Kinds.{Marks, ordered, Numbers};

use order::{Big, ByteOrder, Little};

// The byte order of a message.
#[derive(Clone, Copy, PartialEq, Eq, Debug)]
pub enum Order {
    Little,
    Big,
}

// A byte that is the mark of no order.
#[derive(Clone, Copy, PartialEq, Eq, Debug)]
pub struct NoOrder;

// The type of a message.
#[derive(Clone, Copy, PartialEq, Eq, Debug)]
pub enum Kind {
    Call,
    Return,
    Error,
    Signal,
    // 5 and above
    Other(u8),
}

// The number 0, which no type has.
#[derive(Clone, Copy, PartialEq, Eq, Debug)]
pub struct NoKind;

impl TryFrom<u8> for Order {
    type Error = NoOrder;

    ghost try_from_gives = { Marks };

    fn try_from(mark: u8) -> Result<Order, NoOrder> {
        match mark {
            b'l' => Ok(Order::Little),
            b'B' => Ok(Order::Big),
            _ => Err(NoOrder),
        }
    }
}

impl Order {
    // The number of 32 bits that lies so.
    pub fn u32_of(self, bytes: [u8; 4]) -> u32
        ensures { result ≡ number (ordered self bytes) }
    {
        match self {
            Order::Little => Little::u32_of(bytes),
            Order::Big => Big::u32_of(bytes),
        }
    }
}

impl TryFrom<u8> for Kind {
    type Error = NoKind;

    ghost try_from_gives = { Numbers };

    fn try_from(number: u8) -> Result<Kind, NoKind> {
        match number {
            0 => Err(NoKind),
            1 => Ok(Kind::Call),
            2 => Ok(Kind::Return),
            3 => Ok(Kind::Error),
            4 => Ok(Kind::Signal),
            other => Ok(Kind::Other(other)),
        }
    }
}
