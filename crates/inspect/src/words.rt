// What is shown, as text.
use fields::Field;
use frame::{Frame, Kind, Order};
use hex_digits::pair;
use items::{Cause, Fault, Part};
use std::fmt;

// Bytes of ASCII.
#[derive(Clone, Copy)]
pub struct Plain<'a>(pub &'a [u8]);

impl<'a> Plain<'a> {
    // The text that they are; None where any is no ASCII.
    pub fn text(self) -> Option<&'a str> {
        if self.0.is_ascii() {
            std::str::from_utf8(self.0).ok()
        } else {
            None
        }
    }
}

// Writes gathered text, which is ASCII and so never refused.
fn write_text<W: fmt::Write>(f: &mut fmt::Formatter<W>, bytes: &[u8]) -> fmt::Result {
    f.write_str(std::str::from_utf8(bytes).map_err(|_| fmt::Error)?)
}

impl fmt::Display for Plain<'_> {
    fn fmt<W: fmt::Write>(&self, f: &mut fmt::Formatter<W>) -> fmt::Result {
        // at once, since a character at a time takes twice as long
        if let Some(text) = self.text() {
            return f.write_str(text);
        }
        for b in self.0 {
            f.write_char(char::from(*b))?;
        }
        Ok(())
    }
}

// How much text is gathered before it is written: to write each character apart takes twice as long.
const GATHERED: usize = 64;

// Whether a byte stands in hex between quotes: it is not printable ASCII, or a quote or backslash.
fn is_escaped(b: u8) -> bool {
    matches!(b, b'"' | b'\\' | ..=0x1f | 0x7f..)
}

// A byte in hex, as it stands between quotes.
fn escaped(b: u8) -> [u8; 4] {
    match b {
        b'"' => *b"\\x22",
        b'\\' => *b"\\x5c",
        other => {
            let [high, low] = pair(other);
            [b'\\', b'x', high, low]
        }
    }
}

// Bytes between quotes, where those that are not printable ASCII, and quotes and backslashes, stand in hex.
#[derive(Clone, Copy)]
pub struct Quoted<'a>(pub &'a [u8]);

impl fmt::Display for Quoted<'_> {
    fn fmt<W: fmt::Write>(&self, f: &mut fmt::Formatter<W>) -> fmt::Result {
        if self.0.is_empty() {
            return f.write_str("\"\"");
        }
        // with one place more, for the last quote
        let mut text = [b'"'; GATHERED + 1];
        // the first quote is there
        let mut size = 1;
        for b in self.0 {
            if size + 4 > GATHERED {
                write_text(f, &text[..size])?;
                size = 0;
            }
            if is_escaped(*b) {
                text[size..size + 4].copy_from_slice(&escaped(*b));
                size += 4;
            } else {
                text[size] = *b;
                size += 1;
            }
        }
        text[size] = b'"';
        write_text(f, &text[..=size])
    }
}

// What is shown in words.
#[derive(Clone, Copy)]
pub struct InWords<T>(pub T);

impl fmt::Display for InWords<Kind> {
    fn fmt<W: fmt::Write>(&self, f: &mut fmt::Formatter<W>) -> fmt::Result {
        match self.0 {
            Kind::Call => f.write_str("call"),
            Kind::Return => f.write_str("return"),
            Kind::Error => f.write_str("error"),
            Kind::Signal => f.write_str("signal"),
            Kind::Other(number) => write!(f, "type {number}"),
        }
    }
}

impl fmt::Display for InWords<Order> {
    fn fmt<W: fmt::Write>(&self, f: &mut fmt::Formatter<W>) -> fmt::Result {
        f.write_str(match self.0 {
            Order::Little => "little endian",
            Order::Big => "big endian",
        })
    }
}

impl fmt::Display for InWords<Frame> {
    fn fmt<W: fmt::Write>(&self, f: &mut fmt::Formatter<W>) -> fmt::Result {
        let Frame {
            order,
            kind,
            flags,
            serial,
            ..
        } = self.0;
        write!(
            f,
            "{}, {}, serial {serial}, flags {flags}",
            InWords(kind),
            InWords(order)
        )
    }
}

impl fmt::Display for InWords<Field> {
    fn fmt<W: fmt::Write>(&self, f: &mut fmt::Formatter<W>) -> fmt::Result {
        f.write_str(match self.0 {
            Field::Path => "path",
            Field::Interface => "interface",
            Field::Member => "member",
            Field::ErrorName => "error name",
            Field::ReplySerial => "reply serial",
            Field::Destination => "destination",
            Field::Sender => "sender",
            Field::Signature => "signature",
        })
    }
}

impl fmt::Display for InWords<Part> {
    fn fmt<W: fmt::Write>(&self, f: &mut fmt::Formatter<W>) -> fmt::Result {
        f.write_str(match self.0 {
            Part::Frame => "the frame",
            Part::Fields => "the fields",
            Part::Body => "the body",
        })
    }
}

impl fmt::Display for InWords<Cause> {
    fn fmt<W: fmt::Write>(&self, f: &mut fmt::Formatter<W>) -> fmt::Result {
        f.write_str(match self.0 {
            Cause::TooShort => "under 16 bytes",
            Cause::ByteOrder => "no byte order",
            Cause::NoType => "type 0",
            Cause::Version => "wrong version",
            Cause::Length => "wrong length",
            Cause::NoSerial => "serial 0",
            Cause::Padding => "padding not zero",
            Cause::PastEnd => "past the end",
            Cause::Text => "bad text",
            Cause::Boolean => "bad boolean",
            Cause::Name => "bad path, name or reply serial",
            Cause::Signature => "bad signature",
            Cause::Depth => "nested too deep",
            Cause::Field => "bad field",
            Cause::MissingField => "needed field missing",
            Cause::LeftOver => "bytes left over",
        })
    }
}

impl fmt::Display for InWords<Fault> {
    fn fmt<W: fmt::Write>(&self, f: &mut fmt::Formatter<W>) -> fmt::Result {
        let Fault { part, cause, byte } = self.0;
        write!(
            f,
            "fault in {} at byte {byte}: {} (part {}, cause {})",
            InWords(part),
            InWords(cause),
            u8::from(part),
            u8::from(cause)
        )
    }
}
