// A message that was read.
ghost use Rattle.std.specs.Prelude.{◌≡◌, Ok as Fine, Err as Refused, MatchResult};
ghost use Rattle.message.specs.Messages.{IsMessage, Reading, Decided};

use crate::Layout;
use crate::reading::read;
use items::Fault;

// The bytes of a message, and where its parts lie in them.
#[derive(Clone, Copy)]
pub struct Message<'a> {
    pub bytes: &'a [u8],
    pub layout: Layout,
    ghost is_read: { ∥ IsMessage bytes.now layout ∥₁ },
}

// The message that bytes are, which may be so many; or its one fault.
pub fn check(bytes: &[u8], limit: usize) -> Result<Message<'_>, Fault>
    ensures value { MatchResult result (λ m. (m.bytes.now ≡ bytes.now) × Reading limit bytes.now (Fine m.layout)) (λ f. Reading limit bytes.now (Refused f)) }
    ensures once { Decided }
{
    let layout = read(bytes, limit)?;
    Ok(Message { bytes, layout })
}
