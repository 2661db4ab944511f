// The fields of a message's header.
#![tactic(auto)]

pub mod known;
mod read;

pub use known::{Field, UnknownField};
pub use read::read_fields;

// What was read of the fields: where the value of each known one begins, and where the next field stands.
// The places are an array by the field's number, since a map would allocate.
#[derive(Clone, Copy)]
pub struct Fields {
    pub places: [Option<usize>; 8],
    pub at: usize,
}
