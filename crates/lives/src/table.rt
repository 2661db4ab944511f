// What the table holds.
ghost use Rattle.std.specs.Prelude.{◌≡◌, length, replicate, None};

use connection::CONNECTIONS;
use handshake::machine::Handshake;

// The lives of sixteen connections. A life is what stands at a connection number from an accepted open until it is closed.
#[derive(Drop)]
pub struct Lives {
    pub(crate) id: [u8; 16],
    pub(crate) table: [Option<Handshake>; CONNECTIONS],
    ghost all: { length table ≡ 16 },
}

impl Lives {
    // No lives, under the id of the server.
    pub fn new(id: [u8; 16]) -> Lives
        ensures lives { result.table ≡ replicate 16 None }
        ensures id { result.id ≡ id }
    {
        Lives {
            id,
            table: [None; CONNECTIONS],
        }
    }
}
