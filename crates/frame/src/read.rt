// Reading the frame of a message.
ghost use Rattle.std.specs.Prelude.{◌≡◌, ◌+◌, ◌^◌, ◌<◌, length, Decides, MatchResult};
ghost use Rattle.items.specs.declared.fault.Cause.TheVariants.{TooShort};
ghost use Rattle.items.specs.Faults.{flaw, Is};
ghost use Rattle.frame.specs.Firsts.{FirstOf, frame_size};
ghost use Rattle.frame.specs.Frames.{Framed, Begun, body_start, frame_at};

use crate::kinds::{Kind, Order};
use crate::{FRAME_SIZE, Frame};
use items::{Cause, Flaw, gap};
use signature::Alignment;

// The version of the format.
const VERSION: u8 = 1;

// The first 16 bytes, one by one. One pattern takes them all, since what it binds is known to a proof.
#[derive(Clone, Copy)]
pub(crate) struct First {
    mark: u8,
    kind: u8,
    flags: u8,
    version: u8,
    body: [u8; 4],
    serial: [u8; 4],
    fields: [u8; 4],
}

impl First {
    fn of(bytes: &[u8]) -> Result<First, Flaw>
        ensures { MatchResult result (λ x. FirstOf bytes.now x) (λ f. (length bytes.now < frame_size) × (f ≡ flaw TooShort 0)) }
    {
        let [
            mark,
            kind,
            flags,
            version,
            b0,
            b1,
            b2,
            b3,
            s0,
            s1,
            s2,
            s3,
            f0,
            f1,
            f2,
            f3,
            ..
        ] = bytes
        else {
            return Err(Cause::TooShort.at(0));
        };
        Ok(First {
            mark: *mark,
            kind: *kind,
            flags: *flags,
            version: *version,
            body: [*b0, *b1, *b2, *b3],
            serial: [*s0, *s1, *s2, *s3],
            fields: [*f0, *f1, *f2, *f3],
        })
    }
}

// What the first 16 bytes say.
fn begun(bytes: &[u8]) -> Result<Frame, Flaw>
    ensures { Begun bytes.now (Is (frame_at bytes.now)) result }
{
    let first = First::of(bytes)?;
    let order = Order::try_from(first.mark).map_err(|_| Cause::ByteOrder.at(0))?;
    let kind = Kind::try_from(first.kind).map_err(|_| Cause::NoType.at(1))?;
    if first.version != VERSION {
        return Err(Cause::Version.at(3));
    }
    Ok(Frame {
        order,
        kind,
        flags: first.flags,
        body: order.u32_of(first.body),
        serial: order.u32_of(first.serial),
        fields: order.u32_of(first.fields),
    })
}

impl Frame {
    // Where the fields end.
    pub fn fields_end(self) -> usize
        ensures { result ≡ frame_size + self.fields }
    {
        FRAME_SIZE + self.fields as usize
    }

    // Where the body begins, behind the fields and their padding.
    pub fn body_start(self) -> usize
        ensures value { result ≡ body_start self }
        ensures bound { result < 2 ^ 33 }
    {
        let end = self.fields_end();
        end + gap(end, Alignment::Eight)
    }

    // Whether a message has just so many bytes.
    fn is_length(self, len: usize) -> bool
        ensures { Decides result (len ≡ body_start self + self.body) }
    {
        len == self.body_start() + self.body as usize
    }
}

// The frame of a message that may have so many bytes.
pub fn read_frame(bytes: &[u8], limit: usize) -> Result<Frame, Flaw>
    ensures { Framed limit bytes.now result }
{
    let frame = begun(bytes)?;
    if bytes.len() > limit || !frame.is_length(bytes.len()) {
        return Err(Cause::Length.at(4));
    }
    if frame.serial == 0 {
        return Err(Cause::NoSerial.at(8));
    }
    Ok(frame)
}
