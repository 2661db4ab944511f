// A whole conversation.
ghost use Rattle.std.specs.Prelude.{◌≡◌, List, map};
ghost use Rattle.handshake.specs.Law.{Exchange, Covers, Conversation, Law};

use crate::machine::{Handshake, Refusal};
use crate::reply::ROOM;

// Gives a new handshake the lines in turn, and answers it as it is then. A BEGIN that comes too early ends it.
pub fn converse(uid: u32, id: &[u8; 16], lines: &[&[u8]]) -> Handshake
    ensures user { result.uid ≡ uid }
    ensures law { (xs : List Exchange) × Covers (map (λ x. x.now) lines.now) xs × Conversation id.now uid xs result.state × Law id.now uid xs result.state }
{
    let mut handshake = Handshake::new(uid);
    let mut buffer = [0u8; ROOM];
    for line in lines {
        let answer = handshake.line(id, line, &mut buffer);
        if answer == Err(Refusal::EarlyBegin) {
            return handshake;
        }
    }
    handshake
}
