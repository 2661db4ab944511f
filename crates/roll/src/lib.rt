// A mailbox set that keeps all its messages in one row of records.
#![tactic(auto)]

ghost use Rattle.std.specs.Prelude.{◌≡◌, ◌*◌, ◌≤◌, length};
ghost use Rattle.std.specs.List.{All};
ghost use Rattle.roll_records.specs.Records.{encode, decode, Laid, Sound, Tallied};

mod calls;
mod layout;
mod steps;

use connection::CONNECTIONS;

// A row of records at the front of an area, in the order in which they were put.
#[derive(Drop)]
pub struct Roll {
    area: Vec<u8>,
    // how many messages may wait for one connection
    limit: usize,
    // how many bytes and how many records the row has; beside the area, since that is the host's and keeps its length
    used: usize,
    records: usize,
    // how many of the records each connection has
    counts: [u8; CONNECTIONS],
    ghost most: { limit ≤ 16 },
    ghost room: { limit * 16432 ≤ length area.items },
    ghost laid: { Laid records area.items },
    ghost ends: { length (encode (decode records area.items)) ≡ used },
    ghost sound: { Sound (decode records area.items) },
    ghost sixteen: { length counts ≡ 16 },
    ghost tallied: { Tallied counts (decode records area.items) },
    ghost fills: { All (λ n. n ≤ limit) counts },
}
