// The steps of a shelf, each in the ring of places of one connection.
ghost use Rattle.std.specs.Prelude.{◌≡◌, ◌*◌, ◌<◌, ◌≤◌, MatchOption, nat_le};
ghost use Rattle.shelf.specs.Rows.{IsRingOf, place};
ghost use Rattle.shelf.specs.Meaning.{ring_in, kept_in, slot_in, count_in};
ghost use Rattle.shelf.specs.Changes.{Turned, Written, Appended, emptied, advanced};

use crate::places::{Ring, SLOT, Shelf};
use area::store;
use connection::{CONNECTIONS, Connection};
use mailbox::Message;

// The k-th place from the head on.
fn place_from(limit: usize, head: usize, k: usize) -> usize
    requires head { head < limit }
    requires near { k ≤ limit }
    requires few { limit ≤ 16 }
    ensures is { result ≡ place limit head k }
    ensures within { result < limit }
{
    let place = head + k;
    if place < limit { place } else { place - limit }
}

impl Shelf {
    // The ring of c.
    fn ring(&self, c: Connection) -> Ring
        ensures is { result ≡ ring_in self.now c.number }
        ensures places { IsRingOf self.now.limit result }
    {
        self.rings[c.index()]
    }

    // Gives c another ring.
    fn turn(&mut self, c: Connection, ring: Ring)
        requires { IsRingOf self.old.limit ring }
        ensures { Turned self.old self.new c.number ring }
    {
        self.rings[c.index()] = ring;
    }

    // How many messages wait for c.
    pub(crate) fn count_of(&self, c: Connection) -> usize
        ensures { result ≡ count_in self.now c.number }
    {
        usize::from(self.ring(c).count)
    }

    // Whether c has as many messages as may wait.
    pub(crate) fn is_full(&self, c: Connection) -> bool
        ensures { result ≡ nat_le self.now.limit (count_in self.now c.number) }
    {
        self.count_of(c) >= self.limit
    }

    // Lets go of all messages of c.
    pub(crate) fn empty(&mut self, c: Connection)
        ensures { Turned self.old self.new c.number (emptied (ring_in self.old c.number)) }
    {
        let Ring { head, .. } = self.ring(c);
        self.turn(c, Ring { head, count: 0 });
    }

    // The slot of the k-th oldest message of c.
    fn slot_of(&self, c: Connection, k: usize) -> usize
        requires { k < self.now.limit }
        ensures is { result ≡ slot_in self.now c.number k }
        ensures within { result < 16 * self.now.limit }
    {
        let head = usize::from(self.ring(c).head);
        CONNECTIONS * place_from(self.limit, head, k) + c.index()
    }

    // The oldest message of c; None where nothing waits.
    pub(crate) fn oldest(&self, c: Connection) -> Option<&[u8]>
        ensures { MatchOption result (count_in self.now c.number ≡ 0) (λ m. (0 < count_in self.now c.number) × (m.now ≡ kept_in self.now (slot_in self.now c.number 0))) }
    {
        if self.count_of(c) == 0 {
            return None;
        }
        let slot = self.slot_of(c, 0);
        let from = SLOT * slot;
        let to = from + usize::from(self.lengths[slot]);
        Some(&self.area[from..to])
    }

    // Moves the head of c on by one place.
    pub(crate) fn advance(&mut self, c: Connection)
        requires { 0 < count_in self.old c.number }
        ensures { Turned self.old self.new c.number (advanced self.old.limit (ring_in self.old c.number)) }
    {
        let Ring { head, count } = self.ring(c);
        let head = place_from(self.limit, usize::from(head), 1) as u8;
        let count = count - 1;
        self.turn(c, Ring { head, count });
    }

    // Writes a message into a slot, and its length beside it.
    fn write(&mut self, slot: usize, message: Message<'_>)
        requires { slot < 16 * self.old.limit }
        ensures { Written self.old self.new slot message.entry.bytes.now }
    {
        // it fits, since the whole slot lies in the area
        let _ = store(&mut self.area, SLOT * slot, message.bytes);
        self.lengths[slot] = message.bytes.len() as u16;
    }

    // Writes a message behind the newest of c.
    pub(crate) fn append(&mut self, c: Connection, message: Message<'_>)
        requires { count_in self.old c.number < self.old.limit }
        ensures { Appended self.old self.new c.number message.entry.bytes.now }
    {
        let Ring { head, count } = self.ring(c);
        let slot = self.slot_of(c, usize::from(count));
        self.write(slot, message);
        let count = count + 1;
        self.turn(c, Ring { head, count });
    }
}
