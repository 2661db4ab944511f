// Reading an item at a place of a message.
ghost use Rattle.std.specs.Prelude.{◌≡◌, ℕ, ◌+◌, ◌-◌, ◌^◌, ◌<◌, ◌≤◌, Bool, true, false, length, take, drop, MatchOption, MatchResult, slice_index};
ghost use Rattle.std.specs.Fn.{FnReturnsAt};
ghost use Rattle.signature.specs.Codes.{step};
ghost use Rattle.signature.specs.Trees.{Signature as Signed};
ghost use Rattle.items.specs.declared.fault.Cause.TheVariants.{Padding, PastEnd, Depth};
ghost use Rattle.items.specs.Faults.{flaw, Provided};
ghost use Rattle.items.specs.Items.{Pad, Shallow, Begun, Closed, Leaf, Typed, Opened, Headed, Zero, Fixed, Truth, Texted, Pathed, Coded, Extent, Item, aligned, number_at, elements_at};

use crate::Span;
use crate::fault::{Cause, Flaw};
use order::ByteOrder;
use signature::{Alignment, Basic, is_signature, is_single};
use text::{is_path, is_text};

// How many arrays, structs, dict entries and variants may be around a value.
const DEEPEST: usize = 64;

// Where an item begins.
#[derive(Clone, Copy)]
pub struct Place<'a> {
    // the message up to the end of the innermost array or part
    pub area: &'a [u8],
    // the first byte of the item, in the area
    pub at: usize,
    // how many arrays, structs, dict entries and variants are around the item
    pub around: usize,
}

// How many bytes there are from `at` to a multiple of the alignment.
pub fn gap(at: usize, alignment: Alignment) -> usize
    ensures value { at + result ≡ aligned (step alignment) at }
    ensures bound { result < 8 }
{
    let unit = alignment.bytes();
    let over = at % unit;
    if over == 0 { 0 } else { unit - over }
}

impl Place<'_> {
    // Refuses the item with this cause unless something holds.
    fn ensure(self, holds: bool, cause: Cause) -> Result<(), Flaw>
        ensures { MatchResult result (λ _. holds ≡ true) (λ f. (holds ≡ false) × (f ≡ flaw cause self.entry.at)) }
    {
        if holds {
            Ok(())
        } else {
            Err(cause.at(self.at))
        }
    }

    // Where so many bytes of the item end, which lie within the area.
    fn end_of(self, size: usize) -> Result<usize, Flaw>
        ensures { MatchResult result (λ end. (end ≡ self.entry.at + size) × (end ≤ length self.entry.area.now)) (λ f. (length self.entry.area.now < self.entry.at + size) × (f ≡ flaw PastEnd self.entry.at)) }
    {
        match self.at.checked_add(size) {
            Some(end) if end <= self.area.len() => Ok(end),
            _ => Err(Cause::PastEnd.at(self.at)),
        }
    }

    // Refuses an item with too many arrays, structs, dict entries and variants around it.
    fn shallow(self) -> Result<(), Flaw>
        ensures { MatchResult result (λ _. self.entry.around ≤ 64) (λ f. (64 < self.entry.around) × (f ≡ flaw Depth self.entry.at)) }
    {
        self.ensure(self.around <= DEEPEST, Cause::Depth)
    }

    // Refuses padding, up to `to`, that is not zero.
    fn zeros(self, to: usize) -> Result<(), Flaw>
        requires { (self.at ≤ to) × (to ≤ length self.area.now) }
        ensures { MatchResult result (λ _. Zero self.entry.area.now self.entry.at to) (λ f. (Zero self.entry.area.now self.entry.at to → ⊥) × (f ≡ flaw Padding self.entry.at)) }
    {
        let zero = self.area[self.at..to].iter().all(|byte| *byte == 0);
        self.ensure(zero, Cause::Padding)
    }

    // The number of 32 bits here, if it has room in the area.
    pub fn word<O: ByteOrder>(self) -> Option<u32>
        ensures { MatchOption result (length self.entry.area.now < self.entry.at + 4) (λ n. (self.entry.at + 4 ≤ length self.entry.area.now) × (n ≡ number_at self.entry.area.now O.ByteOrder.ordered self.entry.at)) }
    {
        let bytes = self.area.get(self.at..)?.first_chunk()?;
        Some(O::u32_of(*bytes))
    }

    // The same, and otherwise the flaw.
    fn number<O: ByteOrder>(self) -> Result<u32, Flaw>
        ensures { MatchResult result (λ n. (self.entry.at + 4 ≤ length self.entry.area.now) × (n ≡ number_at self.entry.area.now O.ByteOrder.ordered self.entry.at)) (λ f. (length self.entry.area.now < self.entry.at + 4) × (f ≡ flaw PastEnd self.entry.at)) }
    {
        self.word::<O>().ok_or(Cause::PastEnd.at(self.at))
    }

    // The end of the padding here.
    pub fn pad(self, alignment: Alignment) -> Result<usize, Flaw>
        ensures { Pad self.entry.area.now alignment self.entry.at result }
    {
        let end = self.end_of(gap(self.at, alignment))?;
        self.zeros(end)?;
        Ok(end)
    }

    // The end of a value of so many bytes.
    fn fixed(self, size: usize) -> Result<usize, Flaw>
        ensures { Fixed self.entry.area.now self.entry.around size self.entry.at result }
    {
        let end = self.end_of(size)?;
        self.shallow()?;
        Ok(end)
    }

    // The end of a boolean.
    fn boolean<O: ByteOrder>(self) -> Result<usize, Flaw>
        ensures { Truth self.entry.area.now O.ByteOrder.ordered self.entry.around self.entry.at result }
    {
        let value = self.number::<O>()?;
        self.ensure(value <= 1, Cause::Boolean)?;
        self.shallow()?;
        Ok(self.at + 4)
    }

    // Where the bytes of a text or signature lie, behind a length of `head` bytes; a zero byte ends them.
    fn closed(self, head: usize, len: usize) -> Result<Span, Flaw>
        requires { (head ≤ 4) × (len < 2 ^ 32) }
        ensures { Closed self.entry.area.now head len self.entry.at result }
    {
        let end = self.end_of(head + len + 1)?;
        let last = end - 1;
        self.ensure(self.area[last] == 0, Cause::Text)?;
        Ok(Span {
            from: self.at + head,
            to: last,
        })
    }

    // Where the bytes of a text lie, whose length stands here.
    fn letters<O: ByteOrder>(self) -> Result<Span, Flaw>
        ensures { Closed self.entry.area.now 4 (number_at self.entry.area.now O.ByteOrder.ordered self.entry.at) self.entry.at result }
    {
        let len = self.number::<O>()?;
        self.closed(4, len as usize)
    }

    // Where the codes of a signature lie, whose length stands here.
    fn codes(self) -> Result<Span, Flaw>
        ensures { Closed self.entry.area.now 1 (slice_index self.entry.area.now self.entry.at) self.entry.at result }
    {
        let _ = self.end_of(1)?;
        self.closed(1, usize::from(self.area[self.at]))
    }

    // The end of a text, path or signature, whose bytes pass a test.
    fn spelled<F: Fn(&[u8]) -> bool>(
        self,
        bytes: Span,
        test: F,
        cause: Cause,
    ) -> Result<usize, Flaw>
        requires within { (bytes.from ≤ bytes.to) × (bytes.to < length self.area.now) }
        requires callable { F.IsAlwaysCallable test }
        ensures { (passes : Bool) × FnReturnsAt F.Fn test (take (bytes.to - bytes.from) (drop bytes.from self.entry.area.now)) passes × Provided (passes ≡ true) cause self.entry.at (Shallow self.entry.area.now self.entry.around self.entry.at (bytes.to + 1)) result }
    {
        self.ensure(test(&self.area[bytes.from..bytes.to]), cause)?;
        self.shallow()?;
        Ok(bytes.to + 1)
    }

    // The end of a text.
    fn text<O: ByteOrder>(self) -> Result<usize, Flaw>
        ensures { Texted self.entry.area.now O.ByteOrder.ordered self.entry.around self.entry.at result }
    {
        self.spelled(self.letters::<O>()?, is_text, Cause::Text)
    }

    // The end of an object path.
    fn path<O: ByteOrder>(self) -> Result<usize, Flaw>
        ensures { Pathed self.entry.area.now O.ByteOrder.ordered self.entry.around self.entry.at result }
    {
        self.spelled(self.letters::<O>()?, is_path, Cause::Name)
    }

    // The end of a signature.
    fn signature(self) -> Result<usize, Flaw>
        ensures { Coded self.entry.area.now Signed self.entry.around self.entry.at result }
    {
        self.spelled(self.codes()?, is_signature, Cause::Signature)
    }

    // The end of a type: a signature of exactly one complete type.
    pub fn type_code(self) -> Result<usize, Flaw>
        ensures { Typed self.entry.area.now self.entry.around self.entry.at result }
    {
        self.spelled(self.codes()?, is_single, Cause::Signature)
    }

    // The end of a value of a basic type behind its padding.
    fn item<O: ByteOrder>(self, kind: Basic) -> Result<usize, Flaw>
        ensures { Item self.entry.area.now O.ByteOrder.ordered kind self.entry.around self.entry.at result }
    {
        match kind {
            Basic::Byte => self.fixed(1),
            Basic::Boolean => self.boolean::<O>(),
            Basic::Int16 | Basic::Uint16 => self.fixed(2),
            Basic::Int32 | Basic::Uint32 => self.fixed(4),
            Basic::Int64 | Basic::Uint64 | Basic::Double => self.fixed(8),
            Basic::Text => self.text::<O>(),
            Basic::Path => self.path::<O>(),
            Basic::Signature => self.signature(),
        }
    }

    // The end of a value of a basic type, with its padding.
    pub fn basic<O: ByteOrder>(self, kind: Basic) -> Result<usize, Flaw>
        ensures { Leaf self.entry.area.now O.ByteOrder.ordered kind self.entry.around self.entry.at result }
    {
        let at = self.pad(kind.alignment())?;
        Place { at, ..self }.item::<O>(kind)
    }

    // The beginning of a struct or dict entry behind its padding.
    fn begun(self) -> Result<usize, Flaw>
        ensures { Begun self.entry.area.now self.entry.around self.entry.at result }
    {
        self.shallow()?;
        Ok(self.at)
    }

    // Where the first member of a struct or dict entry begins.
    pub fn structure(self) -> Result<usize, Flaw>
        ensures { Opened self.entry.area.now self.entry.around self.entry.at result }
    {
        let at = self.pad(Alignment::Eight)?;
        Place { at, ..self }.begun()
    }

    // Where the elements of an array lie, whose length stands here. The length does not count the padding before them.
    fn elements<O: ByteOrder>(self, alignment: Alignment) -> Result<Span, Flaw>
        ensures { MatchResult result (λ s. (s ≡ elements_at self.entry.area.now O.ByteOrder.ordered alignment self.entry.at) × (s.to ≤ length self.entry.area.now)) (λ f. (length self.entry.area.now < (elements_at self.entry.area.now O.ByteOrder.ordered alignment self.entry.at).to) × (f ≡ flaw PastEnd self.entry.at)) }
    {
        let len = self.number::<O>()? as usize;
        let padding = self.at + 4;
        let skip = gap(padding, alignment);
        let to = self.end_of(4 + skip + len)?;
        Ok(Span {
            from: padding + skip,
            to,
        })
    }

    // The same, the padding being zero.
    fn extent<O: ByteOrder>(self, alignment: Alignment) -> Result<Span, Flaw>
        ensures { Extent self.entry.area.now O.ByteOrder.ordered alignment self.entry.around self.entry.at result }
    {
        let span = self.elements::<O>(alignment)?;
        self.shallow()?;
        let padding = self.at + 4;
        Place {
            at: padding,
            ..self
        }
        .zeros(span.from)?;
        Ok(span)
    }

    // Where the elements of an array lie, whose type has this alignment.
    pub fn array<O: ByteOrder>(self, alignment: Alignment) -> Result<Span, Flaw>
        ensures { Headed self.entry.area.now O.ByteOrder.ordered alignment self.entry.around self.entry.at result }
    {
        let at = self.pad(Alignment::Four)?;
        Place { at, ..self }.extent::<O>(alignment)
    }
}
