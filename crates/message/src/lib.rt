// A message, read from bytes.
#![tactic(auto)]

mod checked;
mod reading;

pub use checked::{Message, check};
use fields::Fields;
use frame::Frame;
pub use reading::read;

// Where the parts of a message lie: what its frame says, and where the values of its known fields begin.
#[derive(Clone, Copy)]
pub struct Layout {
    pub frame: Frame,
    pub fields: Fields,
}
