// Reading the fields.
ghost use Rattle.std.specs.Prelude.{◌≡◌, ◌+◌, ◌-◌, ◌^◌, ◌<◌, ◌≤◌, length, take, Ok as Fine, Decides, IsTrue};
ghost use Rattle.text.specs.Grammar.{IsBusName};
ghost use Rattle.items.specs.Items.{Typed, codes_at, text_at};
ghost use Rattle.fields.specs.Known.{known};
ghost use Rattle.fields.specs.Headers.{place_of, Free, Own, start as start_of_lem, noted, Proper, Coded, Kinded, Fitting, Valued, OneField, AllFields, none_yet, Header};
ghost use Rattle.fields.specs.Words.{has_word};

use crate::Fields;
use crate::known::{Field, UnknownField};
use area::front;
use frame::FRAME_SIZE;
use items::{Cause, Flaw, Place, Span, gap};
use order::ByteOrder;
use signature::Alignment;
use text::{bus_name, is_interface, is_member};
use values::values;

// Codes that stand nowhere.
const NOTHING: u8 = 0;

const FILE_DESCRIPTORS: u8 = 9;

// Where the value of a field begins, its padding passed.
fn start(field: Option<Field>, at: usize) -> usize
    requires { at < 2 ^ 63 }
    ensures { result ≡ start_of_lem field at }
{
    match field {
        Some(known) => at + gap(at, known.value_type().alignment()),
        None => at,
    }
}

// Whether a field has its own type.
fn is_own(field: Option<Field>, codes: &[u8]) -> bool
    ensures { Decides result (Own field codes.now) }
{
    field.is_none_or(|known| codes.len() == 1 && codes[0] == u8::from(known.value_type()))
}

// The end of the type of a field.
fn type_end(area: &[u8], field: Option<Field>, at: usize) -> Result<usize, Flaw>
    ensures { Kinded area.now field at result }
{
    let place = Place {
        area,
        at,
        around: 0,
    };
    let end = place.type_code()?;
    if !is_own(field, &area[at + 1..end - 1]) {
        return Err(Cause::Field.at(at));
    }
    Ok(end)
}

// Whether the bytes are a bus name of either kind.
fn is_bus_name(bytes: &[u8]) -> bool
    ensures { Decides result (IsBusName bytes.now) }
{
    bus_name(bytes).is_some()
}

// A value that is well, of a field that is known or not.
#[derive(Clone, Copy)]
struct Found<'a> {
    place: Place<'a>,
    field: Option<Field>,
    end: usize,
    ghost room: { IsTrue (has_word field) → place.at + 4 ≤ length place.area.now },
}

impl<'a> Found<'a> {
    // The bytes of the text.
    fn text<O: ByteOrder>(self) -> &'a [u8]
        requires { self.place.at + 4 ≤ length self.place.area.now }
        ensures { result.now ≡ text_at self.entry.place.area.now O.ByteOrder.ordered self.entry.place.at }
    {
        let Place { area, at, .. } = self.place;
        let size = self.place.word::<O>().unwrap_or(0) as usize;
        front(&area[at + 4..], size)
    }

    // Whether the value is a name as the field asks, or a serial.
    fn is_proper<O: ByteOrder>(self) -> bool
        ensures { Decides result (Proper O.ByteOrder.ordered self.entry.place.area.now self.entry.field self.entry.place.at) }
    {
        match self.field {
            Some(Field::Interface | Field::ErrorName) => is_interface(self.text::<O>()),
            Some(Field::Member) => is_member(self.text::<O>()),
            Some(Field::ReplySerial) => self.place.word::<O>().unwrap_or(0) != 0,
            Some(Field::Destination | Field::Sender) => is_bus_name(self.text::<O>()),
            Some(Field::Path | Field::Signature) | None => true,
        }
    }
}

impl Fields {
    // Where the value of a known field begins, if the message has the field.
    pub fn place(&self, field: Field) -> Option<usize>
        ensures { result ≡ place_of self.now.places field }
    {
        self.places[field.index()]
    }

    // Whether a field of this code may come next.
    fn is_free(&self, code: u8) -> bool
        ensures { Decides result (Free self.now.places code (known code)) }
    {
        match Field::try_from(code) {
            Ok(field) => self.place(field).is_none(),
            Err(UnknownField) => code != NOTHING && code != FILE_DESCRIPTORS,
        }
    }

    // The code at a place, where a field of it may come next.
    fn code_at(&self, area: &[u8], at: usize) -> Result<u8, Flaw>
        ensures { Coded area.now self.now at result }
    {
        let code = *area.get(at).ok_or(Cause::PastEnd.at(at))?;
        if !self.is_free(code) {
            return Err(Cause::Field.at(at));
        }
        Ok(code)
    }

    // The fields with one more.
    fn with<O: ByteOrder>(self, found: Found) -> Result<Fields, Flaw>
        ensures { Fitting O.ByteOrder.ordered found.entry.place.area.now self found.entry.field found.entry.place.at found.entry.end result }
    {
        if !found.is_proper::<O>() {
            return Err(Cause::Name.at(found.place.at));
        }
        let mut places = self.places;
        if let Some(known) = found.field {
            places[known.index()] = Some(found.place.at);
        }
        Ok(Fields {
            places,
            at: found.end,
        })
    }
}

// Reads the fields of a message, which end at `end`.
#[derive(Clone, Copy)]
struct Reader<'a> {
    bytes: &'a [u8],
    end: usize,
    ghost within: { end ≤ length bytes.now },
}

impl<'a> Reader<'a> {
    // The message up to the end of the fields.
    fn area(self) -> &'a [u8]
        ensures { result.now ≡ take self.entry.end self.entry.bytes.now }
    {
        &self.bytes[..self.end]
    }

    // The fields with one more, whose type and value begin at these places.
    fn value<O: ByteOrder>(
        self,
        fields: Fields,
        field: Option<Field>,
        kind: usize,
        at: usize,
    ) -> Result<Fields, Flaw>
        requires { Kinded (take self.end self.bytes.now) field kind (Fine at) }
        ensures { Valued O.ByteOrder.ordered self.entry.bytes.now self.entry.end fields field kind at result }
    {
        let codes = Span {
            from: kind + 1,
            to: at - 1,
        };
        let end = values::<O>(self.bytes, codes, at, self.end)?;
        let place = Place {
            area: self.area(),
            at: start(field, at),
            around: 0,
        };
        fields.with::<O>(Found { place, field, end })
    }

    // The fields with one more.
    fn field<O: ByteOrder>(self, fields: Fields) -> Result<Fields, Flaw>
        ensures { OneField O.ByteOrder.ordered self.entry.bytes.now self.entry.end fields result }
    {
        let area = self.area();
        let padding = Place {
            area,
            at: fields.at,
            around: 0,
        };
        let start = padding.pad(Alignment::Eight)?;
        let code = fields.code_at(area, start)?;
        let field = Field::try_from(code).ok();
        let kind = start + 1;
        let at = type_end(area, field, kind)?;
        self.value::<O>(fields, field, kind, at)
    }

    // All fields up to their end.
    fn fields<O: ByteOrder>(self) -> Result<Fields, Flaw>
        ensures { AllFields O.ByteOrder.ordered self.entry.bytes.now self.entry.end none_yet result }
    {
        let mut fields = Fields {
            places: [None; 8],
            at: FRAME_SIZE,
        };
        while fields.at < self.end {
            fields = self.field::<O>(fields)?;
        }
        Ok(fields)
    }
}

// The fields of a message that end at `end`, and the padding behind them.
pub fn read_fields<O: ByteOrder>(bytes: &[u8], end: usize) -> Result<Fields, Flaw>
    ensures { Header O.ByteOrder.ordered bytes.now end result }
{
    if end < FRAME_SIZE || end > bytes.len() {
        return Err(Cause::PastEnd.at(FRAME_SIZE));
    }
    let fields = Reader { bytes, end }.fields::<O>()?;
    let padding = Place {
        area: bytes,
        at: end,
        around: 0,
    };
    let _ = padding.pad(Alignment::Eight)?;
    Ok(fields)
}
