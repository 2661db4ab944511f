// Why a line is not shown.
use std::alloc::AllocError;
use std::error::Error;
use std::fmt;
use stream::Fault;

#[derive(Clone, Copy, Debug)]
pub enum Failure {
    NotHex,
    // never what was found to be a message
    Unreadable,
    OutOfMemory,
}

impl From<AllocError> for Failure {
    fn from(_e: AllocError) -> Failure {
        Failure::OutOfMemory
    }
}

// Each program has its own words for bytes that are not in hex.
impl From<Fault> for Failure {
    fn from(fault: Fault) -> Failure {
        match fault {
            Fault::OutOfMemory => Failure::OutOfMemory,
            _ => Failure::NotHex,
        }
    }
}

impl fmt::Display for Failure {
    fn fmt<W: fmt::Write>(&self, f: &mut fmt::Formatter<W>) -> fmt::Result {
        f.write_str(match self {
            Failure::NotHex => "the line is not pairs of lower-case hex digits",
            Failure::Unreadable => "the message cannot be read",
            Failure::OutOfMemory => "there is not enough memory",
        })
    }
}

impl Error for Failure {}
