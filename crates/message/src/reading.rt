// Reading a message.
ghost use Rattle.std.specs.Prelude.{◌≡◌, ℕ, ◌+◌, ◌<◌, ◌≤◌, length, Some as Given, Decides};
ghost use Rattle.fields.specs.declared.known.Field.TheVariants.{Signature as Types};
ghost use Rattle.fields.specs.Headers.{place_of};
ghost use Rattle.message.specs.Messages.{placed, codes_of, needed, Has, Complete, Contents, AfterFrame, Reading, Decided};

use crate::Layout;
use fields::{Field, read_fields};
use frame::{FRAME_SIZE, Frame, Kind, Order, read_frame};
use items::{Cause, Fault, Flaw, Part, Span};
use order::{Big, ByteOrder, Little};
use values::values;

// A flaw in a part of the message is a fault.
fn within<T>(part: Part, res: Result<T, Flaw>) -> Result<T, Fault>
    ensures { result ≡ placed part res }
{
    res.map_err(|flaw| Fault {
        part,
        cause: flaw.cause,
        byte: flaw.byte,
    })
}

// The fields that a message of this type needs.
fn needed(kind: Kind) -> &'static [Field]
    ensures { result.now ≡ needed kind }
{
    match kind {
        Kind::Call => &[Field::Path, Field::Member],
        Kind::Return => &[Field::ReplySerial],
        Kind::Error => &[Field::ErrorName, Field::ReplySerial],
        Kind::Signal => &[Field::Path, Field::Interface, Field::Member],
        Kind::Other(_) => &[],
    }
}

impl Layout {
    fn has(&self, field: Field) -> bool
        ensures { Decides result (Has self.now.fields.places field) }
    {
        self.fields.place(field).is_some()
    }

    // Whether the message has the fields that it needs.
    fn is_complete(&self) -> bool
        ensures { Decides result (Complete self.now.frame.kind self.now.fields.places) }
    {
        needed(self.frame.kind).iter().all(|field| self.has(*field))
    }

    // The codes of the body's types: those of the signature field, none where there is no such field.
    fn codes(&self, bytes: &[u8]) -> Span
        requires { (p : ℕ) → place_of self.now.fields.places Types ≡ Given p → p < length bytes.now }
        ensures { result ≡ codes_of bytes.now (place_of self.now.fields.places Types) }
    {
        match self.fields.place(Field::Signature) {
            Some(at) => Span {
                from: at + 1,
                to: at + 1 + bytes[at] as usize,
            },
            None => Span { from: 0, to: 0 },
        }
    }

    // Where the values of the body end.
    fn contents<O: ByteOrder>(&self, bytes: &[u8]) -> Result<usize, Flaw>
        requires { (p : ℕ) → place_of self.now.fields.places Types ≡ Given p → p < length bytes.now }
        ensures { Contents O.ByteOrder.ordered bytes.now self.now.frame self.now.fields result }
    {
        values::<O>(
            bytes,
            self.codes(bytes),
            self.frame.body_start(),
            bytes.len(),
        )
    }
}

// The fields and the body behind a frame.
fn behind<O: ByteOrder>(bytes: &[u8], frame: Frame) -> Result<Layout, Fault>
    ensures { AfterFrame O.ByteOrder.ordered bytes.now frame result }
{
    let fields = within(Part::Fields, read_fields::<O>(bytes, frame.fields_end()))?;
    let layout = Layout { frame, fields };
    let end = within(Part::Body, layout.contents::<O>(bytes))?;
    if !layout.is_complete() {
        return Err(Fault {
            part: Part::Fields,
            cause: Cause::MissingField,
            byte: FRAME_SIZE,
        });
    }
    if end != bytes.len() {
        return Err(Fault {
            part: Part::Body,
            cause: Cause::LeftOver,
            byte: end,
        });
    }
    Ok(layout)
}

// Where the parts of a message lie that may have so many bytes; or its one fault.
pub fn read(bytes: &[u8], limit: usize) -> Result<Layout, Fault>
    ensures value { Reading limit bytes.now result }
    ensures once { Decided }
{
    let frame = within(Part::Frame, read_frame(bytes, limit))?;
    match frame.order {
        Order::Little => behind::<Little>(bytes, frame),
        Order::Big => behind::<Big>(bytes, frame),
    }
}
