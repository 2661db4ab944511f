// Rows of calls.
ghost use Rattle.std.specs.Prelude.{◌≡◌};
ghost use Rattle.stream.specs.Calls.{Arguments, Reads, form_of, verb_of};
ghost use Rattle.stream.specs.Text.{left};

use crate::answer::Form;
use crate::fault::Fault;
use crate::verb::Verb;
use crate::words::Words;
use std::alloc::Global;

// A call of a recorded stream.
#[derive(Drop)]
pub enum Call {
    Bus {
        limit: u8,
        id: [u8; 16],
    },
    Open {
        connection: u8,
        uid: u32,
    },
    Line {
        connection: u8,
        bytes: Vec<u8>,
        size: u16,
    },
    Message {
        connection: u8,
        bytes: Vec<u8>,
    },
    Tick {
        time: u64,
    },
    Take {
        connection: u8,
        size: u16,
    },
    Close {
        connection: u8,
    },
}

impl Call {
    pub fn verb(&self) -> Verb
        ensures { result ≡ verb_of self.now }
    {
        match self {
            Call::Bus { .. } => Verb::Bus,
            Call::Open { .. } => Verb::Open,
            Call::Line { .. } => Verb::Line,
            Call::Message { .. } => Verb::Message,
            Call::Tick { .. } => Verb::Tick,
            Call::Take { .. } => Verb::Take,
            Call::Close { .. } => Verb::Close,
        }
    }

    // What the answer holds where the call is accepted; `bus` has none.
    pub fn form(&self) -> Option<Form>
        ensures { result ≡ form_of self.now }
    {
        match self {
            Call::Bus { .. } => None,
            Call::Open { .. } | Call::Tick { .. } | Call::Close { .. } => Some(Form::Nothing),
            Call::Line { .. } | Call::Take { .. } => Some(Form::Bytes),
            Call::Message { .. } => Some(Form::Counts),
        }
    }
}

// A reader for each verb: they read alike, and make another call each.
fn read_bus(words: &mut Words) -> Result<Call, Fault>
    ensures { Arguments Verb.Bus (left words.old) result }
{
    let limit = words.number()?;
    if limit > 16 {
        return Err(Fault::BadNumber);
    }
    let bytes = words.bytes()?;
    words.end()?;
    match <[u8; 16]>::try_from(bytes.as_slice()) {
        Ok(id) => Ok(Call::Bus { limit, id }),
        Err(_) => Err(Fault::WrongLength),
    }
}

fn read_open(words: &mut Words) -> Result<Call, Fault>
    ensures { Arguments Verb.Open (left words.old) result }
{
    let connection = words.number()?;
    let uid = words.number()?;
    words.end()?;
    Ok(Call::Open { connection, uid })
}

fn read_line(words: &mut Words) -> Result<Call, Fault>
    ensures { Arguments Verb.Line (left words.old) result }
{
    let connection = words.number()?;
    let bytes = words.bytes()?;
    let size = words.number()?;
    words.end()?;
    Ok(Call::Line {
        connection,
        bytes,
        size,
    })
}

fn read_message(words: &mut Words) -> Result<Call, Fault>
    ensures { Arguments Verb.Message (left words.old) result }
{
    let connection = words.number()?;
    let bytes = words.bytes()?;
    words.end()?;
    Ok(Call::Message { connection, bytes })
}

fn read_tick(words: &mut Words) -> Result<Call, Fault>
    ensures { Arguments Verb.Tick (left words.old) result }
{
    let time = words.number()?;
    words.end()?;
    Ok(Call::Tick { time })
}

fn read_take(words: &mut Words) -> Result<Call, Fault>
    ensures { Arguments Verb.Take (left words.old) result }
{
    let connection = words.number()?;
    let size = words.number()?;
    words.end()?;
    Ok(Call::Take { connection, size })
}

fn read_close(words: &mut Words) -> Result<Call, Fault>
    ensures { Arguments Verb.Close (left words.old) result }
{
    let connection = words.number()?;
    words.end()?;
    Ok(Call::Close { connection })
}

// The call of a verb, from the words that follow.
fn read_arguments(verb: Verb, words: &mut Words) -> Result<Call, Fault>
    ensures { Arguments verb (left words.old) result }
{
    match verb {
        Verb::Bus => read_bus(words),
        Verb::Open => read_open(words),
        Verb::Line => read_line(words),
        Verb::Message => read_message(words),
        Verb::Tick => read_tick(words),
        Verb::Take => read_take(words),
        Verb::Close => read_close(words),
    }
}

// The call that `row` spells.
pub fn read_call(heap: Global, row: &[u8]) -> Result<Call, Fault>
    ensures { Reads row.now result }
{
    let mut words = Words::new(heap, row);
    let word = words.next().ok_or(Fault::NoSuchRow)?;
    read_arguments(Verb::try_from(word)?, &mut words)
}
