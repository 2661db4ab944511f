// A shelf, and what holds of it between calls.
ghost use Rattle.std.specs.Prelude.{◌≡◌, ◌*◌, ◌≤◌, length, vec_len};
ghost use Rattle.std.specs.List.{All};
ghost use Rattle.mailbox.specs.Lists.{IsSize};
ghost use Rattle.shelf.specs.Rows.{IsRingOf};

use connection::CONNECTIONS;
use mailbox::{LONGEST, PLACES};

// The bytes of a slot: the longest message fits.
pub const SLOT: usize = LONGEST;

// The bytes of one place, a slot, of each connection.
pub const PLACE: usize = CONNECTIONS * SLOT;

pub const SLOTS: usize = CONNECTIONS * PLACES;

// The places of one connection.
#[derive(Clone, Copy, PartialEq, Eq, Debug)]
pub struct Ring {
    // the place of the oldest message
    pub head: u8,
    // how many messages wait
    pub count: u8,
}

// A mailbox set with a slot for each message that may wait: place p of connection c is slot 16 * p + c.
#[derive(Drop)]
pub struct Shelf {
    // slot s is the 1024 bytes from 1024 * s on, with a message at its front
    pub(crate) area: Vec<u8>,
    // how many places each connection has
    pub(crate) limit: usize,
    // by connection
    pub(crate) rings: [Ring; CONNECTIONS],
    // by slot, the length of its message, 1 before the first; beside the area, since a full slot has no room for it
    pub(crate) lengths: [u16; SLOTS],
    // every place lies in the area
    ghost most: { limit ≤ 16 },
    ghost room: { limit * 16384 ≤ vec_len area },
    ghost turned: { All (IsRingOf limit) rings },
    ghost sized: { All IsSize lengths },
    // as many as there are connections and slots
    ghost ringed: { length rings ≡ 16 },
    ghost measured: { length lengths ≡ 256 },
}
