// Steps that are carried out on any mailbox set.
#![tactic(auto)]

ghost use Rattle.std.specs.Prelude.{◌≡◌, length};
ghost use Rattle.steps.specs.Steps.{Alike, outcome, lists_after, buffer_after};

use mailbox::{MailboxSet, Refusal};

// What is asked of a mailbox set.
#[derive(Clone, Copy)]
pub enum Step<'a> {
    Put(u8, &'a [u8]),
    Take(u8),
    Clear(u8),
    Count(u8),
}

// What it answers.
#[derive(Clone, Copy, PartialEq, Eq, Debug)]
pub enum Outcome {
    Put(Result<(), Refusal>),
    Taken(Result<usize, Refusal>),
    Cleared,
    Counted(usize),
}

// Carries out the step. A message that is taken is written to the buffer's front.
pub fn carry_out<M: MailboxSet>(set: &mut M, step: Step<'_>, buffer: &mut [u8]) -> Outcome
    ensures answer { result ≡ outcome (M.MailboxSet.bound set.old) (M.MailboxSet.lists set.old) step.entry (length buffer.old) }
    ensures after { M.MailboxSet.lists set.new ≡ lists_after (M.MailboxSet.bound set.old) (M.MailboxSet.lists set.old) step.entry (length buffer.old) }
    ensures buffer { buffer.new ≡ buffer_after (M.MailboxSet.lists set.old) step.entry buffer.old }
    ensures bound { M.MailboxSet.bound set.new ≡ M.MailboxSet.bound set.old }
{
    match step {
        Step::Put(c, message) => Outcome::Put(set.put(c, message)),
        Step::Take(c) => Outcome::Taken(set.take(c, buffer)),
        Step::Clear(c) => {
            set.clear(c);
            Outcome::Cleared
        }
        Step::Count(c) => Outcome::Counted(set.count(c)),
    }
}

// What two sets answer.
#[derive(Clone, Copy, PartialEq, Eq, Debug)]
pub struct Answers {
    pub first: Outcome,
    pub second: Outcome,
}

// Carries out the step on two sets, each with a buffer of its own.
// Sets that mean the same give the same answer and write the same bytes, and mean the same after it.
pub fn compare<F: MailboxSet, S: MailboxSet>(
    first: &mut F,
    second: &mut S,
    step: Step<'_>,
    out: &mut [u8],
    other: &mut [u8],
) -> Answers
    ensures first { result.first ≡ outcome (F.MailboxSet.bound first.old) (F.MailboxSet.lists first.old) step.entry (length out.old) }
    ensures second { result.second ≡ outcome (S.MailboxSet.bound second.old) (S.MailboxSet.lists second.old) step.entry (length other.old) }
    ensures law { Alike (F.MailboxSet.bound first.old) (F.MailboxSet.lists first.old) out.old (S.MailboxSet.bound second.old) (S.MailboxSet.lists second.old) other.old → (result.first ≡ result.second) × Alike (F.MailboxSet.bound first.new) (F.MailboxSet.lists first.new) out.new (S.MailboxSet.bound second.new) (S.MailboxSet.lists second.new) other.new }
{
    let a = carry_out(first, step, out);
    let b = carry_out(second, step, other);
    Answers {
        first: a,
        second: b,
    }
}
