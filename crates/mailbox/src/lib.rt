// Sixteen mailboxes behind one trait.
#![tactic(auto)]

mod message;

ghost use Rattle.std.specs.Prelude.{◌≡◌, ℕ, ◌/◌, min, Some, length};
ghost use Rattle.mailbox.specs.Lists.{Lists, Laws, waiting, put_answer, put_after, take_answer, take_after, take_buffer, clear_after};
ghost use Rattle.mailbox.specs.Refusals.{words};
ghost use Rattle.mailbox.specs.declared.Refusal.TheVariants.{NoMailbox};

use connection::NoConnection;
pub use message::{LONGEST, Message};
use std::fmt;

// The most messages that may wait for one connection.
pub const PLACES: usize = 16;

// Why a message is not put or not taken.
#[derive(Clone, Copy, PartialEq, Eq, Debug)]
pub enum Refusal {
    // there is no such connection
    NoMailbox,
    // the message is empty, or longer than a mailbox takes
    BadLength,
    // as many messages wait as may
    Full,
    // the buffer is shorter than the oldest message
    ShortBuffer,
}

impl From<NoConnection> for Refusal {
    ghost from_gives = { λ _ r. r ≡ NoMailbox };

    fn from(_none: NoConnection) -> Self {
        Self::NoMailbox
    }
}

impl fmt::Display for Refusal {
    ghost output = { λ r. Some (words r) };

    fn fmt<W: fmt::Write>(&self, f: &mut fmt::Formatter<W>) -> fmt::Result {
        f.write_str(match self {
            Refusal::NoMailbox => "no mailbox",
            Refusal::BadLength => "bad length",
            Refusal::Full => "full",
            Refusal::ShortBuffer => "short buffer",
        })
    }
}

// How many messages may wait for one connection, in an area of so many bytes, where one place for each takes so many.
pub fn limit_for(bytes: usize, place: usize) -> usize
    ensures { result ≡ min 16 (bytes / place) }
{
    bytes.checked_div(place).unwrap_or(0).min(PLACES)
}

// Messages that wait for sixteen connections, each in the order in which it came.
pub trait MailboxSet {
    // what waits, by connection, the oldest first
    ghost lists: { Self → Lists };

    // how many messages may wait for one connection; that a call keeps it is said at each, since no type says it of two sets
    ghost bound: { Self → ℕ };

    ghost laws: { Laws lists bound };

    // How many messages may wait for one connection.
    fn limit(&self) -> usize
        ensures { result ≡ bound self.now };

    // How many wait for c.
    fn count(&self, c: u8) -> usize
        ensures { result ≡ length (waiting (lists self.now) c) };

    // Adds the message last for c.
    fn put(&mut self, c: u8, message: &[u8]) -> Result<(), Refusal>
        ensures answer { result ≡ put_answer (bound self.old) (lists self.old) c message.now }
        ensures after { lists self.new ≡ put_after (bound self.old) (lists self.old) c message.now }
        ensures bound { bound self.new ≡ bound self.old };

    // Removes the oldest message for c, writes it to the buffer's front, and answers its length; 0 where none waits,
    // which is no message's length, and what hosts are to be answered.
    fn take(&mut self, c: u8, buffer: &mut [u8]) -> Result<usize, Refusal>
        ensures answer { result ≡ take_answer (waiting (lists self.old) c) (length buffer.old) }
        ensures after { lists self.new ≡ take_after (lists self.old) c (length buffer.old) }
        ensures buffer { buffer.new ≡ take_buffer (waiting (lists self.old) c) buffer.old }
        ensures bound { bound self.new ≡ bound self.old };

    // Lets go of all that waits for c.
    fn clear(&mut self, c: u8)
        ensures after { lists self.new ≡ clear_after (lists self.old) c }
        ensures bound { bound self.new ≡ bound self.old };
}
