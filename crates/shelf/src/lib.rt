// A mailbox set over an area of bytes, with a slot for each message that may wait.
#![tactic(auto)]

mod places;
mod ring;

ghost use Rattle.std.specs.Prelude.{◌≡◌, ◌/◌, min, [], replicate, vec_len};
ghost use Rattle.shelf.specs.Meaning.{lists_of, limit_of};
ghost use Rattle.shelf.specs.Laws.{laws};

use area::store;
use connection::{CONNECTIONS, Connection};
use mailbox::{MailboxSet, Message, Refusal, limit_for};
pub use places::Shelf;
use places::{PLACE, Ring, SLOTS};

impl Shelf {
    // A shelf over an area, with nothing on it.
    pub fn over(area: Vec<u8>) -> Shelf
        ensures limit { limit_of result ≡ min 16 (vec_len area / 16384) }
        ensures empty { lists_of result ≡ replicate 16 [] }
    {
        let limit = limit_for(area.len(), PLACE);
        Shelf {
            area,
            limit,
            rings: [Ring { head: 0, count: 0 }; CONNECTIONS],
            lengths: [1; SLOTS],
        }
    }
}

// `count`, `put` and `take` read as the roll's do. As bodies in the trait they would need its steps there, which are not for
// hosts to call.
impl MailboxSet for Shelf {
    ghost lists = { lists_of };

    ghost bound = { limit_of };

    ghost laws = { laws };

    fn limit(&self) -> usize {
        self.limit
    }

    fn count(&self, c: u8) -> usize {
        // `map_or` leaves its closure's fact without a name, so that nothing can be cited
        match Connection::try_from(c) {
            Ok(c) => self.count_of(c),
            Err(_) => 0,
        }
    }

    fn put(&mut self, c: u8, message: &[u8]) -> Result<(), Refusal> {
        let c = Connection::try_from(c)?;
        let message = Message::try_from(message)?;
        if self.is_full(c) {
            return Err(Refusal::Full);
        }
        self.append(c, message);
        Ok(())
    }

    fn take(&mut self, c: u8, buffer: &mut [u8]) -> Result<usize, Refusal> {
        let Ok(c) = Connection::try_from(c) else {
            return Ok(0);
        };
        let Some(message) = self.oldest(c) else {
            return Ok(0);
        };
        let Some(size) = store(buffer, 0, message) else {
            return Err(Refusal::ShortBuffer);
        };
        self.advance(c);
        Ok(size)
    }

    fn clear(&mut self, c: u8) {
        if let Ok(c) = Connection::try_from(c) {
            self.empty(c);
        }
    }
}
