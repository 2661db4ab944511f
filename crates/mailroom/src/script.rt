// The lines of a script.
use mailbox::PLACES;
use std::alloc::Global;
use std::error::Error;
use std::fmt;
use std::str::FromStr;
use stream::{Fault, unhex};

// A line of a script.
#[derive(Drop)]
pub enum Line {
    Limit(usize),
    Put(u8, Vec<u8>),
    Take(u8, u16),
    Clear(u8),
    Count(u8),
}

// Why a line is no step.
#[derive(Clone, Copy, Debug)]
pub enum Wrong {
    NoSuchStep,
    // a step before the first `limit`
    NoLimit,
    BadNumber,
    BadHex,
    TooManyWords,
    OutOfMemory,
}

impl fmt::Display for Wrong {
    fn fmt<W: fmt::Write>(&self, f: &mut fmt::Formatter<W>) -> fmt::Result {
        f.write_str(match self {
            Wrong::NoSuchStep => "there is no such step",
            Wrong::NoLimit => "the first step is not 'limit'",
            Wrong::BadNumber => "a number is missing, malformed or too large",
            Wrong::BadHex => "a message is missing, or not in pairs of lower-case hex digits",
            Wrong::TooManyWords => "the step has too many words",
            Wrong::OutOfMemory => "there is not enough memory",
        })
    }
}

impl Error for Wrong {}

// Each program has its own words for bytes that are not in hex.
impl From<Fault> for Wrong {
    fn from(fault: Fault) -> Wrong {
        match fault {
            Fault::OutOfMemory => Wrong::OutOfMemory,
            _ => Wrong::BadHex,
        }
    }
}

fn number<T: FromStr>(word: Option<&str>) -> Result<T, Wrong>
where
    T::Err: Drop,
{
    word.and_then(|text| text.parse::<T>().ok())
        .ok_or(Wrong::BadNumber)
}

fn limit(word: Option<&str>) -> Result<usize, Wrong> {
    let limit = number::<usize>(word)?;
    if limit > PLACES {
        return Err(Wrong::BadNumber);
    }
    Ok(limit)
}

fn message(heap: Global, word: Option<&str>) -> Result<Vec<u8>, Wrong> {
    let text = word.ok_or(Wrong::BadHex)?;
    Ok(unhex(heap, text.as_bytes())?)
}

// What the text says, which has no comment.
pub fn read(heap: Global, text: &str) -> Result<Line, Wrong> {
    let mut words = text.split(' ');
    let line = match words.next() {
        Some("limit") => Line::Limit(limit(words.next())?),
        Some("put") => Line::Put(number(words.next())?, message(heap, words.next())?),
        Some("take") => Line::Take(number(words.next())?, number(words.next())?),
        Some("clear") => Line::Clear(number(words.next())?),
        Some("count") => Line::Count(number(words.next())?),
        _ => return Err(Wrong::NoSuchStep),
    };
    if words.next().is_some() {
        return Err(Wrong::TooManyWords);
    }
    Ok(line)
}
