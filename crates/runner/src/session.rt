// A recorded stream as it is replayed, row by row.
use lives::table::Lives;
use replay::perform::{Unmade, perform};
use replay::tally::Tally;
use std::alloc::Global;
use std::error::Error;
use std::fmt;
use stream::{Answer, Call, Fault, Form, Verb, agrees, content, is_answer, read_answer, read_call};

// Why a replay stops.
#[derive(Clone, Copy, PartialEq, Eq, Debug)]
pub enum Trouble {
    Row(Fault),
    // a call before the first bus, or no bus at all
    NoBus,
    // an answer where no call waits for one
    NoCall,
    // a call that still waits for its answer
    NoAnswer,
    // a call that this build does not have yet
    NotYet(Verb),
    OutOfMemory,
}

impl From<Fault> for Trouble {
    fn from(fault: Fault) -> Trouble {
        Trouble::Row(fault)
    }
}

impl fmt::Display for Trouble {
    fn fmt<W: fmt::Write>(&self, f: &mut fmt::Formatter<W>) -> fmt::Result {
        match self {
            Trouble::Row(fault) => write!(f, "{fault}"),
            Trouble::NoBus => f.write_str("there is no 'bus' row before this"),
            Trouble::NoCall => f.write_str("there is an answer, and no call waits for one"),
            Trouble::NoAnswer => f.write_str("the call before this has no recorded answer"),
            Trouble::NotYet(verb) => write!(f, "this build does not have the call '{verb}' yet"),
            Trouble::OutOfMemory => f.write_str("there is no memory for the buffer"),
        }
    }
}

impl Error for Trouble {}

// An answer that is not the recorded one.
#[derive(Drop)]
pub struct Disagreement {
    pub expected: Answer,
    pub came: Answer,
}

// A call that was made, and waits for the row with its recorded answer.
#[derive(Drop)]
struct Waiting {
    form: Form,
    came: Answer,
}

#[derive(Drop)]
pub struct Session {
    lives: Option<Lives>,
    waiting: Option<Waiting>,
    tally: Tally,
}

impl Session {
    pub fn new() -> Session {
        Session {
            lives: None,
            waiting: None,
            tally: Tally::new(),
        }
    }

    // One row of the stream.
    pub fn row(&mut self, heap: Global, row: &[u8]) -> Result<Option<Disagreement>, Trouble> {
        let text = content(row);
        if text.is_empty() {
            return Ok(None);
        }
        if is_answer(text) {
            return self.judge(heap, text);
        }
        let call = read_call(heap, text)?;
        self.make(heap, &call)?;
        Ok(None)
    }

    // The end of the stream: what was accomplished.
    pub fn end(&self) -> Result<Tally, Trouble> {
        self.ready()?;
        if self.tally.buses == 0 {
            return Err(Trouble::NoBus);
        }
        Ok(self.tally)
    }

    // That no call waits for its answer.
    fn ready(&self) -> Result<(), Trouble> {
        if self.waiting.is_some() {
            return Err(Trouble::NoAnswer);
        }
        Ok(())
    }

    fn make(&mut self, heap: Global, call: &Call) -> Result<(), Trouble> {
        self.ready()?;
        if let Call::Bus { limit: _, id } = call {
            self.lives = Some(Lives::new(*id));
            self.tally.note(call, &Answer::Done);
            return Ok(());
        }
        let Some(lives) = &mut self.lives else {
            return Err(Trouble::NoBus);
        };
        let came = perform(heap, lives, call).map_err(|unmade| match unmade {
            Unmade::NotYet => Trouble::NotYet(call.verb()),
            Unmade::OutOfMemory => Trouble::OutOfMemory,
        })?;
        if let (Call::Line { connection, .. }, Answer::Wrote(_)) = (call, &came) {
            if lives.has_begun(*connection) {
                self.tally.finished = self.tally.finished.saturating_add(1);
            }
        }
        self.tally.note(call, &came);
        if let Some(form) = call.form() {
            self.waiting = Some(Waiting { form, came });
        }
        Ok(())
    }

    fn judge(&mut self, heap: Global, text: &[u8]) -> Result<Option<Disagreement>, Trouble> {
        let Waiting { form, came } = self.waiting.take().ok_or(Trouble::NoCall)?;
        let expected = read_answer(heap, form, text)?;
        if agrees(&expected, &came) {
            self.tally.agreed = self.tally.agreed.saturating_add(1);
            return Ok(None);
        }
        Ok(Some(Disagreement { expected, came }))
    }
}
