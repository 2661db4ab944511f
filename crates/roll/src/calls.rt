// The calls of a roll.
ghost use Rattle.std.specs.Prelude.{◌≡◌, ◌/◌, min, [], replicate, vec_len};
ghost use Rattle.roll.specs.Meaning.{lists_of, limit_of};
ghost use Rattle.roll.specs.Laws.{laws};

use super::Roll;
use super::layout::{PLACE, message_of};
use area::store;
use connection::{CONNECTIONS, Connection};
use mailbox::{MailboxSet, Message, Refusal, limit_for};

impl Roll {
    // An empty roll over an area, whatever that holds.
    pub fn over(area: Vec<u8>) -> Roll
        ensures limit { limit_of result ≡ min 16 (vec_len area / 16432) }
        ensures empty { lists_of result ≡ replicate 16 [] }
    {
        let limit = limit_for(area.len(), PLACE);
        Roll {
            area,
            limit,
            used: 0,
            records: 0,
            counts: [0; CONNECTIONS],
        }
    }
}

// `count`, `put` and `take` read as the shelf's do. As bodies in the trait they would need its steps there, which are not for
// hosts to call.
impl MailboxSet for Roll {
    ghost lists = { lists_of };

    ghost bound = { limit_of };

    ghost laws = { laws };

    fn limit(&self) -> usize {
        self.limit
    }

    fn count(&self, c: u8) -> usize {
        // `map_or` leaves its closure's fact without a name, so that nothing can be cited
        match Connection::try_from(c) {
            Ok(c) => self.count_of(c),
            Err(_) => 0,
        }
    }

    fn put(&mut self, c: u8, message: &[u8]) -> Result<(), Refusal> {
        let c = Connection::try_from(c)?;
        let message = Message::try_from(message)?;
        if self.is_full(c) {
            return Err(Refusal::Full);
        }
        self.append(c, message);
        Ok(())
    }

    fn take(&mut self, c: u8, buffer: &mut [u8]) -> Result<usize, Refusal> {
        let Ok(c) = Connection::try_from(c) else {
            return Ok(0);
        };
        let Some(span) = self.oldest(c) else {
            return Ok(0);
        };
        let Some(size) = store(buffer, 0, message_of(&self.area, span)) else {
            return Err(Refusal::ShortBuffer);
        };
        self.close_up(c, span);
        Ok(size)
    }

    fn clear(&mut self, c: u8) {
        if let Ok(c) = Connection::try_from(c) {
            while let Some(span) = self.oldest(c) {
                self.close_up(c, span);
            }
        }
    }
}
