// The fields that are known.
ghost use Rattle.std.specs.Prelude.{◌≡◌, ◌<◌};
ghost use Rattle.fields.specs.Known.{Codes, field_type, index_of};

use signature::Basic;

// A known field of a message's header, with its code.
#[derive(Clone, Copy, PartialEq, Eq, Debug)]
pub enum Field {
    Path = 1,
    Interface = 2,
    Member = 3,
    ErrorName = 4,
    ReplySerial = 5,
    Destination = 6,
    Sender = 7,
    Signature = 8,
}

// A code that no known field has.
#[derive(Clone, Copy, PartialEq, Eq, Debug)]
pub struct UnknownField;

impl TryFrom<u8> for Field {
    type Error = UnknownField;

    ghost try_from_gives = { Codes };

    fn try_from(code: u8) -> Result<Field, UnknownField> {
        match code {
            1 => Ok(Field::Path),
            2 => Ok(Field::Interface),
            3 => Ok(Field::Member),
            4 => Ok(Field::ErrorName),
            5 => Ok(Field::ReplySerial),
            6 => Ok(Field::Destination),
            7 => Ok(Field::Sender),
            8 => Ok(Field::Signature),
            _ => Err(UnknownField),
        }
    }
}

impl Field {
    // The type of the field's value.
    pub fn value_type(self) -> Basic
        ensures { result ≡ field_type self }
    {
        match self {
            Field::Path => Basic::Path,
            Field::ReplySerial => Basic::Uint32,
            Field::Signature => Basic::Signature,
            Field::Interface
            | Field::Member
            | Field::ErrorName
            | Field::Destination
            | Field::Sender => Basic::Text,
        }
    }

    // The field's place among the eight, from 0 on: one less than its code.
    pub(crate) fn index(self) -> usize
        ensures value { result ≡ index_of self }
        ensures bound { result < 8 }
    {
        self as usize - 1
    }
}
