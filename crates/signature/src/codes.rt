// The codes of types.
ghost use Rattle.std.specs.Prelude.{◌≡◌, ◌<◌, ◌≤◌};
ghost use Rattle.signature.specs.Codes.{code, align, basic_align, step, IsBasicOf, IsHeadOf};

// A type whose values hold no others, with its code.
#[derive(Clone, Copy, PartialEq, Eq, Debug)]
pub enum Basic {
    Byte = b'y' as isize,
    Boolean = b'b' as isize,
    Int16 = b'n' as isize,
    Uint16 = b'q' as isize,
    Int32 = b'i' as isize,
    Uint32 = b'u' as isize,
    Int64 = b'x' as isize,
    Uint64 = b't' as isize,
    Double = b'd' as isize,
    Text = b's' as isize,
    Path = b'o' as isize,
    Signature = b'g' as isize,
}

// What a type or a dict entry begins with.
#[derive(Clone, Copy, PartialEq, Eq, Debug)]
pub enum Head {
    Basic(Basic),
    Variant,
    Array,
    Struct,
    Entry,
}

// What the place of a value is a multiple of.
#[derive(Clone, Copy, PartialEq, Eq, Debug)]
pub enum Alignment {
    One = 1,
    Two = 2,
    Four = 4,
    Eight = 8,
}

// A byte that is the code of no type.
#[derive(Clone, Copy, PartialEq, Eq, Debug)]
pub struct NoCode;

impl Alignment {
    pub fn bytes(self) -> usize
        ensures value { result ≡ step self }
        ensures bound { (0 < result) × (result ≤ 8) }
    {
        self as usize
    }
}

impl TryFrom<u8> for Basic {
    type Error = NoCode;

    ghost try_from_gives = { IsBasicOf };

    fn try_from(code: u8) -> Result<Basic, NoCode> {
        match code {
            b'y' => Ok(Basic::Byte),
            b'b' => Ok(Basic::Boolean),
            b'n' => Ok(Basic::Int16),
            b'q' => Ok(Basic::Uint16),
            b'i' => Ok(Basic::Int32),
            b'u' => Ok(Basic::Uint32),
            b'x' => Ok(Basic::Int64),
            b't' => Ok(Basic::Uint64),
            b'd' => Ok(Basic::Double),
            b's' => Ok(Basic::Text),
            b'o' => Ok(Basic::Path),
            b'g' => Ok(Basic::Signature),
            _ => Err(NoCode),
        }
    }
}

impl TryFrom<u8> for Head {
    type Error = NoCode;

    ghost try_from_gives = { IsHeadOf };

    fn try_from(code: u8) -> Result<Head, NoCode> {
        match code {
            b'v' => Ok(Head::Variant),
            b'a' => Ok(Head::Array),
            b'(' => Ok(Head::Struct),
            b'{' => Ok(Head::Entry),
            _ => Ok(Head::Basic(Basic::try_from(code)?)),
        }
    }
}

impl From<Basic> for u8 {
    ghost from_gives = { λ kind r. r ≡ code kind };

    fn from(kind: Basic) -> u8 {
        kind as u8
    }
}

impl Basic {
    pub fn alignment(self) -> Alignment
        ensures { result ≡ basic_align self }
    {
        match self {
            Basic::Byte | Basic::Signature => Alignment::One,
            Basic::Int16 | Basic::Uint16 => Alignment::Two,
            Basic::Boolean | Basic::Int32 | Basic::Uint32 | Basic::Text | Basic::Path =>
                Alignment::Four,
            Basic::Int64 | Basic::Uint64 | Basic::Double => Alignment::Eight,
        }
    }
}

impl Head {
    // The alignment of a value, or of a dict entry.
    pub fn alignment(self) -> Alignment
        ensures { result ≡ align self }
    {
        match self {
            Head::Basic(basic) => basic.alignment(),
            Head::Variant => Alignment::One,
            Head::Array => Alignment::Four,
            Head::Struct | Head::Entry => Alignment::Eight,
        }
    }
}
