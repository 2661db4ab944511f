// Rows of answers.
ghost use Rattle.std.specs.Prelude.{◌≡◌, ◌⊎◌, Some, Decides, slice_index};
ghost use Rattle.stream.specs.Replies.{Accepted, Placed, Denied, Reads, denied, said, spelled};
ghost use Rattle.stream.specs.Text.{left};

use crate::fault::Fault;
use crate::hex::Hex;
use crate::refusal::Refusal;
use crate::words::Words;
use std::alloc::Global;
use std::fmt;

// What the answer of an accepted call holds.
#[derive(Clone, Copy, PartialEq, Eq, Debug)]
pub enum Form {
    Nothing,
    Bytes,
    Counts,
}

// The answer of a call.
#[derive(PartialEq, Eq, Drop)]
pub enum Answer {
    Done,
    Wrote(Vec<u8>),
    Routed { placed: u8, missed: u8 },
    // a number, since hosts may show and compare any; `Refusal` is the closed list of those that a row may have
    Refused(u8),
    // numbers, since a recording may name a part or a cause that no message has
    Malformed { part: u8, cause: u8, byte: u16 },
}

impl Answer {
    // Whether the call was refused.
    pub fn is_refused(&self) -> bool
        ensures { result ≡ denied self.now }
    {
        match self {
            Answer::Refused(_) | Answer::Malformed { .. } => true,
            Answer::Done | Answer::Wrote(_) | Answer::Routed { .. } => false,
        }
    }
}

// The number of the refusal that says where a message is malformed.
const MALFORMED: u8 = 7;

// A reader for each form of answer: they read alike, and make another answer each.
fn read_done(words: &mut Words) -> Result<Answer, Fault>
    ensures { Accepted Form.Nothing (left words.old) result }
{
    let number: u8 = words.number()?;
    if number != 0 {
        return Err(Fault::BadNumber);
    }
    words.end()?;
    Ok(Answer::Done)
}

fn read_wrote(words: &mut Words) -> Result<Answer, Fault>
    ensures { Accepted Form.Bytes (left words.old) result }
{
    let count: u16 = words.number()?;
    let bytes = words.bytes()?;
    words.end()?;
    if bytes.len() == usize::from(count) {
        Ok(Answer::Wrote(bytes))
    } else {
        Err(Fault::WrongLength)
    }
}

fn read_routed(words: &mut Words) -> Result<Answer, Fault>
    ensures { Accepted Form.Counts (left words.old) result }
{
    let placed = words.number()?;
    let missed = words.number()?;
    words.end()?;
    Ok(Answer::Routed { placed, missed })
}

// The answer of an accepted call, from the words after `=`.
fn read_accepted(form: Form, words: &mut Words) -> Result<Answer, Fault>
    ensures { Accepted form (left words.old) result }
{
    match form {
        Form::Nothing => read_done(words),
        Form::Bytes => read_wrote(words),
        Form::Counts => read_routed(words),
    }
}

fn read_malformed(words: &mut Words) -> Result<Answer, Fault>
    ensures { Placed (left words.old) result }
{
    let part = words.number()?;
    let cause = words.number()?;
    let byte = words.number()?;
    words.end()?;
    Ok(Answer::Malformed { part, cause, byte })
}

// The answer of a refused call, from the words after `!`.
fn read_refused(words: &mut Words) -> Result<Answer, Fault>
    ensures { Denied (left words.old) result }
{
    let number: u8 = words.number()?;
    if number == MALFORMED {
        return read_malformed(words);
    }
    let refusal = Refusal::try_from(number)?;
    words.end()?;
    Ok(Answer::Refused(u8::from(refusal)))
}

// The answer that `row` spells, of a call with answers of this form.
pub fn read_answer(heap: Global, form: Form, row: &[u8]) -> Result<Answer, Fault>
    ensures { Reads form row.now result }
{
    let mut words = Words::new(heap, row);
    let mark = words.next().ok_or(Fault::NoSuchRow)?;
    match mark {
        b"=" => read_accepted(form, &mut words),
        b"!" => read_refused(&mut words),
        _ => Err(Fault::NoSuchRow),
    }
}

// Whether a row is one of an answer, by its first byte.
pub fn is_answer(row: &[u8]) -> bool
    ensures { Decides result ((slice_index row.now 0 ≡ 61) ⊎ (slice_index row.now 0 ≡ 33)) }
{
    matches!(row, [b'=' | b'!', ..])
}

// Whether the answer that came is the recorded one.
pub fn agrees(recorded: &Answer, came: &Answer) -> bool
    ensures { Decides result (said recorded.now ≡ said came.now) }
{
    recorded == came
}

impl fmt::Display for Answer {
    ghost output = { λ a. Some (spelled a) };

    fn fmt<W: fmt::Write>(&self, f: &mut fmt::Formatter<W>) -> fmt::Result {
        match self {
            Answer::Done => f.write_str("= 0"),
            Answer::Wrote(bytes) => {
                let count = bytes.len();
                let hex = Hex(bytes.as_slice());
                write!(f, "= {count} {hex}")
            }
            Answer::Routed { placed, missed } => write!(f, "= {placed} {missed}"),
            Answer::Refused(number) => write!(f, "! {number}"),
            Answer::Malformed { part, cause, byte } => write!(
                f,
                "! {MALFORMED} {part} {cause} {byte}"
            ),
        }
    }
}
