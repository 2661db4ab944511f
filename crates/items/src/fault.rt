// What is wrong with bytes that are no message.
ghost use Rattle.std.specs.Prelude.{◌≡◌};
ghost use Rattle.items.specs.Faults.{cause_number, part_number, flaw};

// The part of a message that a fault is in, with its number.
#[derive(Clone, Copy, PartialEq, Eq, Debug)]
pub enum Part {
    Frame = 1,
    Fields = 2,
    Body = 3,
}

// What is wrong, with its number.
#[derive(Clone, Copy, PartialEq, Eq, Debug)]
pub enum Cause {
    // the frame
    TooShort = 1,
    ByteOrder = 2,
    NoType = 3,
    Version = 4,
    Length = 5,
    NoSerial = 6,
    // an item
    Padding = 7,
    PastEnd = 8,
    Text = 9,
    Boolean = 10,
    Name = 11,
    Signature = 12,
    Depth = 13,
    Field = 14,
    // the whole
    MissingField = 15,
    LeftOver = 16,
}

// What is wrong, and at which byte.
#[derive(Clone, Copy, PartialEq, Eq, Debug)]
pub struct Flaw {
    pub cause: Cause,
    pub byte: usize,
}

// The same, with the part of the message; flat, as it is told.
#[derive(Clone, Copy, PartialEq, Eq, Debug)]
pub struct Fault {
    pub part: Part,
    pub cause: Cause,
    pub byte: usize,
}

impl From<Part> for u8 {
    ghost from_gives = { λ part r. r ≡ part_number part };

    fn from(part: Part) -> u8 {
        part as u8
    }
}

impl From<Cause> for u8 {
    ghost from_gives = { λ cause r. r ≡ cause_number cause };

    fn from(cause: Cause) -> u8 {
        cause as u8
    }
}

impl Cause {
    // This cause, at a byte.
    pub fn at(self, byte: usize) -> Flaw
        ensures { result ≡ flaw self byte }
    {
        Flaw { cause: self, byte }
    }
}
