// The questions: what a line asks.
use std::alloc::{AllocError, Global};
use std::error::Error;
use std::fmt;
use std::str::FromStr;
use stream::{Fault, unhex};

// What a text may be said to be.
#[derive(Clone, Copy)]
pub enum Kind {
    Signature,
    Path,
    Member,
    Interface,
    Error,
    BusName,
    Text,
}

// Are these bytes one of this kind?
#[derive(Drop)]
pub struct Question {
    pub kind: Kind,
    pub bytes: Vec<u8>,
}

// Why a line asks nothing.
#[derive(Clone, Copy, Debug)]
pub enum Wrong {
    NoSuchQuestion,
    NoSuchKind,
    BadHex,
    OutOfMemory,
}

impl From<AllocError> for Wrong {
    fn from(_e: AllocError) -> Wrong {
        Wrong::OutOfMemory
    }
}

// Each program has its own words for bytes that are not in hex.
impl From<Fault> for Wrong {
    fn from(fault: Fault) -> Wrong {
        match fault {
            Fault::OutOfMemory => Wrong::OutOfMemory,
            _ => Wrong::BadHex,
        }
    }
}

impl fmt::Display for Wrong {
    fn fmt<W: fmt::Write>(&self, f: &mut fmt::Formatter<W>) -> fmt::Result {
        f.write_str(match self {
            Wrong::NoSuchQuestion => "there is no such question",
            Wrong::NoSuchKind => "'hex' is not followed by a kind of text",
            Wrong::BadHex => "bytes are missing, or not in pairs of lower-case hex digits",
            Wrong::OutOfMemory => "there is not enough memory",
        })
    }
}

impl Error for Wrong {}

impl FromStr for Kind {
    type Err = Wrong;

    fn from_str(word: &str) -> Result<Kind, Wrong> {
        match word {
            "signature" => Ok(Kind::Signature),
            "path" => Ok(Kind::Path),
            "member" => Ok(Kind::Member),
            "interface" => Ok(Kind::Interface),
            "error" => Ok(Kind::Error),
            "busname" => Ok(Kind::BusName),
            "text" => Ok(Kind::Text),
            _ => Err(Wrong::NoSuchKind),
        }
    }
}

// The first word, and everything after the space behind it.
fn parted(text: &str) -> (&str, &str) {
    text.split_once(' ').unwrap_or((text, ""))
}

// What is behind `hex`: a kind, and the bytes in hex digits.
fn read_hex(heap: Global, text: &str) -> Result<Question, Wrong> {
    let (word, digits) = parted(text);
    let kind = word.parse()?;
    let bytes = unhex(heap, digits.as_bytes())?;
    Ok(Question { kind, bytes })
}

// What the line asks, which is neither empty nor a comment.
pub fn read(heap: Global, line: &str) -> Result<Question, Wrong> {
    let (word, text) = parted(line);
    if word == "hex" {
        return read_hex(heap, text);
    }
    let Ok(kind) = word.parse() else {
        return Err(Wrong::NoSuchQuestion);
    };
    let bytes = text.as_bytes().to_vec(heap)?;
    Ok(Question { kind, bytes })
}
