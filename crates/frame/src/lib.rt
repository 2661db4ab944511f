// The frame of a message: its first 16 bytes, and its length.
#![tactic(auto)]

pub mod kinds;
mod read;

pub use kinds::{Kind, NoKind, NoOrder, Order};
pub use read::read_frame;

// How many bytes a frame takes. The fields begin behind them.
pub const FRAME_SIZE: usize = 16;

// What the first 16 bytes of a message say. Lengths are in bytes.
#[derive(Clone, Copy)]
pub struct Frame {
    pub order: Order,
    pub kind: Kind,
    pub flags: u8,
    pub body: u32,
    pub serial: u32,
    pub fields: u32,
}
