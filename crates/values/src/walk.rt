// A walk through the values of a message.
ghost use Rattle.std.specs.Prelude.{◌≡◌, ℕ, ◌≤◌, ◌⊎◌, List, [], length, drop, take, Decides};
ghost use Rattle.signature.specs.declared.codes.Head.{Head as HeadOf};
ghost use Rattle.signature.specs.declared.codes.Head.TheVariants as heads;
ghost use Rattle.signature.specs.Codes.{head_code, align};
ghost use Rattle.signature.specs.Trees.{Element, spell_element};
ghost use Rattle.values.specs.declared.walk.Stands.TheVariants.{AtValue, PastValue};
ghost use Rattle.values.specs.Values.{Spelled, OfTypes};
ghost use Rattle.values.specs.Walks.{Somewhere, AtHead, Done, innermost, Moved, Stepped};

use area::front;
use arrayvec::ArrayVec;
use items::{Flaw, Place, Span};
use order::ByteOrder;
use signature::{Alignment, Basic, Head, element_end};

// An array, struct, dict entry or variant around the place where a walk stands.
#[derive(Clone, Copy, Default)]
enum Frame {
    // a struct or dict entry
    #[default]
    Struct,
    // where its element's type begins, and the end of what is around it
    Array { element: usize, outer: usize },
    // where the codes go on behind it
    Variant { codes: usize },
}

// What a walk stands at: the next value, or the end of the one before it.
#[derive(Clone, Copy, PartialEq, Eq)]
enum Stands {
    AtValue,
    PastValue,
}

// A walk: the place where it stands, and what is around it. Codes are told by their places in the message, as all that passes is.
#[derive(Drop)]
struct Walk<'a> {
    bytes: &'a [u8],
    codes_end: usize,
    // A container with 64 around it is open at most, which makes 65.
    frames: ArrayVec<Frame, 65>,
    // the next code, and the next byte
    code: usize,
    at: usize,
    // the end of the innermost array or part
    end: usize,
    stands: Stands,
}

// The alignment of what begins with a code.
fn alignment_of(code: u8) -> Alignment
    ensures { (h : HeadOf) → head_code h ≡ code → result ≡ align h }
{
    Head::try_from(code).map_or(Alignment::One, |head| head.alignment())
}

// Where the codes go on behind the element that begins at `from`.
fn past_element(bytes: &[u8], from: usize) -> usize
    requires { from ≤ length bytes.now }
    ensures value { (e : Element) (rest : List ℕ) → spell_element e rest ≡ drop from bytes.now → drop result bytes.now ≡ rest }
    ensures bound { result ≤ length bytes.now }
{
    from + element_end(&bytes[from..]).unwrap_or(0)
}

impl<'a> Walk<'a> {
    // Where the next item begins.
    fn place(&self) -> Place<'a>
        ensures area { result.area.now ≡ take self.now.end self.now.bytes.now }
        ensures at { result.at ≡ self.now.at }
        ensures around { result.around ≡ length self.now.frames.items }
        ensures few { result.around ≤ 65 }
    {
        Place {
            area: front(self.bytes, self.end),
            at: self.at,
            around: self.frames.len(),
        }
    }

    fn basic<O: ByteOrder>(&mut self, kind: Basic) -> Result<(), Flaw>
        requires { AtHead (heads.Basic kind) self.old }
        ensures { Stepped O.ByteOrder.ordered self.old self.new result }
    {
        self.at = self.place().basic::<O>(kind)?;
        self.code += 1;
        self.stands = Stands::PastValue;
        Ok(())
    }

    fn structure(&mut self) -> Result<(), Flaw>
        requires { AtHead heads.Struct self.old ⊎ AtHead heads.Entry self.old }
        ensures { (ordered : List ℕ → List ℕ) → Stepped ordered self.old self.new result }
    {
        self.at = self.place().structure()?;
        self.code += 1;
        self.frames.push(Frame::Struct);
        Ok(())
    }

    fn array<O: ByteOrder>(&mut self) -> Result<(), Flaw>
        requires { AtHead heads.Array self.old }
        ensures { Stepped O.ByteOrder.ordered self.old self.new result }
    {
        let element = self.code + 1;
        let alignment = alignment_of(self.bytes[element]);
        let span = self.place().array::<O>(alignment)?;
        self.at = span.from;
        if span.from < span.to {
            let outer = self.end;
            self.frames.push(Frame::Array { element, outer });
            self.code = element;
            self.end = span.to;
        } else {
            self.code = past_element(self.bytes, element);
            self.stands = Stands::PastValue;
        }
        Ok(())
    }

    fn variant(&mut self) -> Result<(), Flaw>
        requires { AtHead heads.Variant self.old }
        ensures { (ordered : List ℕ → List ℕ) → Stepped ordered self.old self.new result }
    {
        let at = self.place().type_code()?;
        let codes = self.code + 1;
        self.frames.push(Frame::Variant { codes });
        self.code = self.at + 1;
        self.at = at;
        Ok(())
    }

    // Takes the value at which the walk stands, or what it opens with.
    fn open<O: ByteOrder>(&mut self) -> Result<(), Flaw>
        requires here { Somewhere self.old }
        requires value { self.old.stands ≡ AtValue }
        ensures { Stepped O.ByteOrder.ordered self.old self.new result }
    {
        match Head::try_from(self.bytes[self.code]) {
            Ok(Head::Basic(kind)) => self.basic::<O>(kind),
            Ok(Head::Variant) => self.variant(),
            Ok(Head::Array) => self.array::<O>(),
            Ok(Head::Struct | Head::Entry) => self.structure(),
            Err(_) => unreachable(),
        }
    }

    // Whether there is nothing more to walk.
    fn is_done(&self) -> bool
        ensures { Decides result (Done self.now) }
    {
        self.stands == Stands::PastValue && self.frames.is_empty() && self.code == self.codes_end
    }

    // The innermost of what is around.
    fn innermost(&self) -> Option<Frame>
        ensures { result ≡ innermost self.now }
    {
        self.frames.last().copied()
    }

    // Goes on behind a value.
    fn close(&mut self)
        requires here { Somewhere self.old }
        requires past { self.old.stands ≡ PastValue }
        requires more { Done self.old → ⊥ }
        ensures { (ordered : List ℕ → List ℕ) → Moved ordered self.old self.new }
    {
        match self.innermost() {
            None => self.stands = Stands::AtValue,
            Some(Frame::Struct) => {
                if matches!(self.bytes[self.code], b')' | b'}') {
                    self.code += 1;
                    self.frames.pop();
                } else {
                    self.stands = Stands::AtValue;
                }
            }
            Some(Frame::Array { element, outer }) => {
                if self.at < self.end {
                    self.code = element;
                    self.stands = Stands::AtValue;
                } else {
                    self.end = outer;
                    self.frames.pop();
                }
            }
            Some(Frame::Variant { codes }) => {
                self.code = codes;
                self.frames.pop();
            }
        }
    }
}

// Walks through values of the types of a signature.
pub(crate) fn walked<O: ByteOrder>(
    bytes: &[u8],
    codes: Span,
    at: usize,
    end: usize,
) -> Result<usize, Flaw>
    requires codes { Spelled bytes.now codes }
    requires place { (at ≤ end) × (end ≤ length bytes.now) }
    ensures { OfTypes O.ByteOrder.ordered bytes.now codes at end result }
{
    let mut walk = Walk {
        bytes,
        codes_end: codes.to,
        frames: ArrayVec::new(),
        code: codes.from,
        at,
        end,
        stands: Stands::PastValue,
    };
    while !walk.is_done() {
        match walk.stands {
            Stands::AtValue => walk.open::<O>()?,
            Stands::PastValue => walk.close(),
        }
    }
    Ok(walk.at)
}
