// Showing values.
ghost use Rattle.std.specs.Prelude.{◌<◌, length, IfOk};

use crate::failure::Failure;
use crate::reader::Reader;
use crate::words::Quoted;
use order::ByteOrder;
use signature::{Basic, Head, element_end};

// How deep values nest: at most 64 stand around one.
pub const LEVELS: usize = 65;

// A message as it is shown: what is read next of it, and the text so far.
#[derive(Drop)]
pub struct Shown<'a, O> {
    pub reader: Reader<'a, O>,
    pub text: String,
}

// What a type begins with, and the codes behind that.
fn opened(codes: &[u8]) -> Result<(Head, &[u8]), Failure> {
    let (first, inner) = codes.split_first().ok_or(Failure::Unreadable)?;
    let head = Head::try_from(*first).map_err(|_| Failure::Unreadable)?;
    Ok((head, inner))
}

// The codes before the closing bracket.
fn members(inner: &[u8]) -> Result<&[u8], Failure> {
    let (_, types) = inner.split_last().ok_or(Failure::Unreadable)?;
    Ok(types)
}

// The first type, and those behind it.
fn parted(types: &[u8]) -> Result<(&[u8], &[u8]), Failure>
    ensures { IfOk result (λ parts. length parts.1.now < length types.now) }
{
    match element_end(types) {
        Some(end) if 0 < end && end <= types.len() => Ok(types.split_at(end)),
        _ => Err(Failure::Unreadable),
    }
}

impl<O: ByteOrder> Shown<'_, O> {
    // Shows a value of a basic type.
    fn basic(&mut self, kind: Basic) -> Result<(), Failure> {
        let Shown { reader, text } = self;
        match kind {
            Basic::Byte => write!(text, "{}", reader.read_u8()?)?,
            Basic::Boolean => write!(text, "{}", reader.read_u32()? != 0)?,
            Basic::Int16 => write!(text, "{}", reader.read_u16()?.cast_signed())?,
            Basic::Uint16 => write!(text, "{}", reader.read_u16()?)?,
            Basic::Int32 => write!(text, "{}", reader.read_u32()?.cast_signed())?,
            Basic::Uint32 => write!(text, "{}", reader.read_u32()?)?,
            Basic::Int64 => write!(text, "{}", reader.read_u64()?.cast_signed())?,
            Basic::Uint64 => write!(text, "{}", reader.read_u64()?)?,
            Basic::Double => write!(text, "0x{:016x}", reader.read_u64()?)?,
            Basic::Text | Basic::Path => write!(text, "{}", Quoted(reader.text()?))?,
            Basic::Signature => write!(text, "{}", Quoted(reader.signature()?))?,
        }
        Ok(())
    }

    // Shows a value of the type or dict entry that the codes spell, which goes at most so many levels deep.
    #[cycle(array_value_values_variant)]
    fn value(&mut self, codes: &[u8], levels: usize) -> Result<(), Failure> {
        let inside = levels.checked_sub(1).ok_or(Failure::Unreadable)?;
        let (head, inner) = opened(codes)?;
        self.reader.pad(head.alignment());
        match head {
            Head::Basic(kind) => self.basic(kind)?,
            Head::Variant => self.variant(inside)?,
            Head::Array => self.array(inner, inside)?,
            Head::Struct => {
                self.text.push('(')?;
                self.values(members(inner)?, ", ", inside)?;
                self.text.push(')')?;
            }
            Head::Entry => self.values(members(inner)?, ": ", inside)?,
        }
        Ok(())
    }

    // Shows values of these types, one after the other.
    #[cycle(array_value_values_variant)]
    pub fn values(&mut self, types: &[u8], between: &str, levels: usize) -> Result<(), Failure> {
        let mut left = types;
        let mut before = "";
        while !left.is_empty() {
            self.text.push_str(before)?;
            let (first, rest) = parted(left)?;
            self.value(first, levels)?;
            left = rest;
            before = between;
        }
        Ok(())
    }

    // Shows a variant: its type and its value.
    #[cycle(array_value_values_variant)]
    pub fn variant(&mut self, levels: usize) -> Result<(), Failure> {
        let codes = self.reader.signature()?;
        self.text.push('<')?;
        self.text.push_str(std::str::from_utf8(codes).map_err(|_| Failure::Unreadable)?)?;
        self.text.push(' ')?;
        self.value(codes, levels)?;
        self.text.push('>')?;
        Ok(())
    }

    // Shows an array of what the codes spell, a type or a dict entry.
    #[cycle(array_value_values_variant)]
    fn array(&mut self, element: &[u8], levels: usize) -> Result<(), Failure> {
        let size = self.reader.read_u32()? as usize;
        let (head, _) = opened(element)?;
        let (open, close) = match head {
            Head::Entry => ('{', '}'),
            _ => ('[', ']'),
        };
        self.reader.pad(head.alignment());
        let end = self.reader.at().saturating_add(size);
        self.text.push(open)?;
        let mut before = "";
        // codes that are no type could show a value of no bytes, so this loop ends by the bytes of the array
        for _ in 0..size {
            if self.reader.at() >= end {
                break;
            }
            self.text.push_str(before)?;
            self.value(element, levels)?;
            before = ", ";
        }
        self.text.push(close)?;
        Ok(())
    }
}
