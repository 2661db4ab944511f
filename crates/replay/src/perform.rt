// Makes a call of a recorded stream.
ghost use Rattle.std.specs.Prelude.{◌≡◌, Some, MatchResult};
ghost use Rattle.replay.specs.declared.perform.Unmade.TheVariants.{OutOfMemory};
ghost use Rattle.stream.specs.Replies.{said as telling};
ghost use Rattle.lives.specs.Calls.{opened, closed, lined};
ghost use Rattle.replay.specs.Outcomes.{opening, wrote_or_refused, answered, altered, Unanswered};

use lives::calls::Refusal;
use lives::table::Lives;
use std::alloc::{AllocError, Global};
use stream::{Answer, Call};

// Why a call was not made.
#[derive(Clone, Copy, PartialEq, Eq, Debug)]
pub enum Unmade {
    // this build does not have the call yet
    NotYet,
    // there is no memory for the buffer
    OutOfMemory,
}

impl From<AllocError> for Unmade {
    ghost from_gives = { λ _ r. r ≡ OutOfMemory };

    fn from(_error: AllocError) -> Unmade {
        Unmade::OutOfMemory
    }
}

// The answer of a call that answers nothing but 0.
fn settled(res: Result<(), Refusal>) -> Answer
    ensures { telling result ≡ opening res }
{
    match res {
        Ok(()) => Answer::Done,
        Err(refusal) => Answer::Refused(u8::from(refusal)),
    }
}

// A line with a buffer of `size` bytes.
fn give_line(
    heap: Global,
    lives: &mut Lives,
    c: u8,
    line: &[u8],
    size: u16,
) -> Result<Answer, AllocError>
    ensures answer { MatchResult result (λ a. telling a ≡ wrote_or_refused (lined lives.old.table lives.old.id c line.now size).answer) (λ _. lives.new ≡ lives.old) }
    ensures after { MatchResult result (λ _. lives.new.table ≡ (lined lives.old.table lives.old.id c line.now size).lives) (λ _. lives.new ≡ lives.old) }
    ensures id { lives.new.id ≡ lives.old.id }
{
    let mut buffer = vec![in heap; 0u8; usize::from(size)]?;
    match lives.line(c, line, buffer.as_mut_slice()) {
        Ok(count) => {
            buffer.truncate(count);
            Ok(Answer::Wrote(buffer))
        }
        Err(refusal) => Ok(Answer::Refused(u8::from(refusal))),
    }
}

// Makes the call, and answers what came.
pub fn perform(heap: Global, lives: &mut Lives, call: &Call) -> Result<Answer, Unmade>
    ensures answer { MatchResult result (λ a. answered call.now lives.old.table lives.old.id ≡ Some (telling a)) (λ e. Unanswered e (answered call.now lives.old.table lives.old.id)) }
    ensures after { MatchResult result (λ _. lives.new.table ≡ altered call.now lives.old.table lives.old.id) (λ _. lives.new.table ≡ lives.old.table) }
    ensures id { lives.new.id ≡ lives.old.id }
{
    match call {
        Call::Open { connection, uid } => Ok(settled(lives.open(*connection, *uid))),
        Call::Line {
            connection,
            bytes,
            size,
        } => Ok(give_line(heap, lives, *connection, bytes.as_slice(), *size)?),
        Call::Close { connection } => Ok(settled(lives.close(*connection))),
        Call::Bus { .. } | Call::Message { .. } | Call::Tick { .. } | Call::Take { .. } => Err(
            Unmade::NotYet,
        ),
    }
}
