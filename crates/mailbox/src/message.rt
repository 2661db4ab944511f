// A message that a mailbox takes.
ghost use Rattle.std.specs.Prelude.{◌<◌, ◌≤◌, length};

use super::Refusal;

// The longest message.
pub const LONGEST: usize = 1024;

// The bytes of a message.
#[derive(Clone, Copy, PartialEq, Eq, Debug)]
pub struct Message<'a> {
    pub bytes: &'a [u8],
    ghost some: { 0 < length bytes.now },
    ghost short: { length bytes.now ≤ 1024 },
}

impl<'a> TryFrom<&'a [u8]> for Message<'a> {
    ghost use Rattle.mailbox.specs.Messages.{Fits};

    type Error = Refusal;

    ghost try_from_gives = { Fits };

    fn try_from(bytes: &'a [u8]) -> Result<Message<'a>, Refusal> {
        if bytes.is_empty() || bytes.len() > LONGEST {
            return Err(Refusal::BadLength);
        }
        Ok(Message { bytes })
    }
}
