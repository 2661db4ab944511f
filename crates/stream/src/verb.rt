// The names of calls.
ghost use Rattle.std.specs.Prelude.{Some};
ghost use Rattle.stream.specs.Verbs.{name, Names};

use crate::fault::Fault;
use std::fmt;

// The first word of a call.
#[derive(Clone, Copy, PartialEq, Eq, Debug)]
pub enum Verb {
    Bus,
    Open,
    Line,
    Message,
    Tick,
    Take,
    Close,
}

impl fmt::Display for Verb {
    ghost output = { λ v. Some (name v) };

    fn fmt<W: fmt::Write>(&self, f: &mut fmt::Formatter<W>) -> fmt::Result {
        f.write_str(match self {
            Verb::Bus => "bus",
            Verb::Open => "open",
            Verb::Line => "line",
            Verb::Message => "message",
            Verb::Tick => "tick",
            Verb::Take => "take",
            Verb::Close => "close",
        })
    }
}

impl TryFrom<&[u8]> for Verb {
    type Error = Fault;

    ghost try_from_gives = { λ word r. Names word.now r };

    fn try_from(word: &[u8]) -> Result<Verb, Fault> {
        match word {
            b"bus" => Ok(Verb::Bus),
            b"open" => Ok(Verb::Open),
            b"line" => Ok(Verb::Line),
            b"message" => Ok(Verb::Message),
            b"tick" => Ok(Verb::Tick),
            b"take" => Ok(Verb::Take),
            b"close" => Ok(Verb::Close),
            _ => Err(Fault::NoSuchRow),
        }
    }
}
