// What a message holds, as it is shown.
use crate::failure::Failure;
use crate::reader::Reader;
use crate::value::{LEVELS, Shown};
use crate::words::{InWords, Plain};
use fields::{Field, Fields};
use frame::{FRAME_SIZE, Order};
use message::{Layout, Message};
use order::{Big, ByteOrder, Little};
use signature::{Alignment, Basic};
use std::alloc::Global;
use std::fmt;

// The known fields, as they come one after the other.
const KNOWN: [Field; 8] = [
    Field::Path,
    Field::Interface,
    Field::Member,
    Field::ErrorName,
    Field::ReplySerial,
    Field::Destination,
    Field::Sender,
    Field::Signature,
];

// The value of a known field.
#[derive(Clone, Copy)]
enum Known<'a> {
    Serial(u32),
    // a path, a name or a signature
    Text(&'a [u8]),
}

impl fmt::Display for Known<'_> {
    fn fmt<W: fmt::Write>(&self, f: &mut fmt::Formatter<W>) -> fmt::Result {
        match self {
            Known::Serial(serial) => write!(f, "{serial}"),
            Known::Text(bytes) => write!(f, "{}", Plain(bytes)),
        }
    }
}

// The value of a known field, behind its padding.
fn known_value<'a, O: ByteOrder>(
    reader: &mut Reader<'a, O>,
    field: Field,
) -> Result<Known<'a>, Failure> {
    match field.value_type() {
        Basic::Uint32 => Ok(Known::Serial(reader.read_u32()?)),
        Basic::Signature => Ok(Known::Text(reader.signature()?)),
        _ => Ok(Known::Text(reader.text()?)),
    }
}

impl<O: ByteOrder> Shown<'_, O> {
    // Shows a known field, whose value begins at a place.
    fn known_field(&mut self, field: Field, at: usize) -> Result<(), Failure> {
        let known = known_value(&mut self.reader.moved_to(at), field)?;
        write!(self.text, "\n  {} {known}", InWords(field))?;
        Ok(())
    }

    // Passes the type and the value of a known field.
    fn pass(&mut self, field: Field) -> Result<(), Failure> {
        let _codes = self.reader.signature()?;
        self.reader.pad(field.value_type().alignment());
        let _value = known_value(&mut self.reader, field)?;
        Ok(())
    }

    // Shows the unknown ones of the fields up to `end`.
    fn unknown_fields(&mut self, end: usize) -> Result<(), Failure> {
        // that showing a field never steps back is not known here, so this loop ends by the bytes of the fields
        for _ in self.reader.at()..end {
            if self.reader.at() >= end {
                break;
            }
            self.reader.pad(Alignment::Eight);
            let code = self.reader.read_u8()?;
            if let Ok(field) = Field::try_from(code) {
                self.pass(field)?;
            } else {
                write!(self.text, "\n  field {code} ")?;
                self.variant(LEVELS)?;
            }
        }
        Ok(())
    }

    // Shows the values of the body, if it has any.
    fn body(&mut self, fields: Fields) -> Result<(), Failure> {
        let Some(at) = fields.place(Field::Signature) else {
            return Ok(());
        };
        let types = self.reader.moved_to(at).signature()?;
        if types.is_empty() {
            return Ok(());
        }
        self.text.push_str("\n  body ")?;
        self.values(types, ", ", LEVELS)
    }
}

// The content of a message whose numbers lie in the order O.
fn ordered<O: ByteOrder>(heap: Global, message: Message<'_>) -> Result<String, Failure> {
    let Message { bytes, layout } = message;
    let Layout { frame, fields } = layout;
    let mut shown = Shown {
        reader: Reader::<O>::new(bytes, FRAME_SIZE),
        text: format!(in heap; "{}, {} bytes", InWords(frame), bytes.len())?,
    };
    for field in KNOWN {
        if let Some(at) = fields.place(field) {
            shown.known_field(field, at)?;
        }
    }
    shown.unknown_fields(frame.fields_end())?;
    shown.reader.pad(Alignment::Eight);
    shown.body(fields)?;
    Ok(shown.text)
}

// What a message holds: a line of its frame, and one of each field and the body.
pub fn content(heap: Global, message: Message<'_>) -> Result<String, Failure> {
    match message.layout.frame.order {
        Order::Little => ordered::<Little>(heap, message),
        Order::Big => ordered::<Big>(heap, message),
    }
}
