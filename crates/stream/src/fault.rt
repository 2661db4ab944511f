// What is wrong with a row.
ghost use Rattle.std.specs.Prelude.{◌≡◌};
ghost use Rattle.stream.specs.declared.fault.Fault.TheVariants.{OutOfMemory};

use std::alloc::{AllocError, AllocFailed};
use std::fmt;

// Why a row was not read.
#[derive(Clone, Copy, PartialEq, Eq, Debug)]
pub enum Fault {
    NoSuchRow,
    WrongCount,
    BadNumber,
    BadHex,
    WrongLength,
    OutOfMemory,
}

impl From<AllocError> for Fault {
    ghost from_gives = { λ _ r. r ≡ OutOfMemory };

    fn from(_e: AllocError) -> Fault {
        Fault::OutOfMemory
    }
}

impl<T: Drop> From<AllocFailed<T>> for Fault {
    ghost from_gives = { λ _ r. r ≡ OutOfMemory };

    fn from(_e: AllocFailed<T>) -> Fault {
        Fault::OutOfMemory
    }
}

impl fmt::Display for Fault {
    fn fmt<W: fmt::Write>(&self, f: &mut fmt::Formatter<W>) -> fmt::Result {
        f.write_str(match self {
            Fault::NoSuchRow => "there is no such row",
            Fault::WrongCount => "the row has too few or too many words",
            Fault::BadNumber => "a number is malformed or too large",
            Fault::BadHex => "bytes are not written as pairs of lower-case hex digits",
            Fault::WrongLength => "the row has too many or too few bytes",
            Fault::OutOfMemory => "there is not enough memory",
        })
    }
}
