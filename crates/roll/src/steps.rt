// The steps that the calls take.
ghost use Rattle.std.specs.Prelude.{◌≡◌, ◌<◌, [], ◌∷◌, ◌++◌, MatchOption, nat_le, slice_index};
ghost use Rattle.roll_records.specs.Records.{record_of, without, First};
ghost use Rattle.roll.specs.Meaning.{row, waits};

use super::Roll;
use super::layout::{HEAD, Span, find, write_record};
use connection::Connection;
use mailbox::Message;

impl Roll {
    // How many messages wait for c.
    pub(super) fn count_of(&self, c: Connection) -> usize
        ensures { result ≡ slice_index self.now.counts c.number }
    {
        usize::from(self.counts[c.index()])
    }

    // Whether c has as many messages as may wait.
    pub(super) fn is_full(&self, c: Connection) -> bool
        ensures { result ≡ nat_le self.now.limit (slice_index self.now.counts c.number) }
    {
        self.count_of(c) >= self.limit
    }

    // Writes a record behind the last.
    pub(super) fn append(&mut self, c: Connection, message: Message<'_>)
        requires { slice_index self.old.counts c.number < self.old.limit }
        ensures rows { row self.new ≡ row self.old ++ (record_of c.number message.entry.bytes.now ∷ []) }
        ensures limit { self.new.limit ≡ self.old.limit }
    {
        self.used = write_record(&mut self.area, self.used, c, message);
        self.records += 1;
        self.counts[c.index()] += 1;
    }

    // The oldest record of c; None, without a search, where nothing waits.
    pub(super) fn oldest(&self, c: Connection) -> Option<Span>
        ensures { MatchOption result (waits self.now c.number ≡ []) (λ r. First self.now.area.items self.now.records self.now.used c.number r.at r.size) }
    {
        if self.count_of(c) == 0 {
            return None;
        }
        find(&self.area, self.records, c)
    }

    // Moves all that lies behind the first record of c forward over it.
    pub(super) fn close_up(&mut self, c: Connection, span: Span)
        requires { First self.old.area.items self.old.records self.old.used c.number span.at span.size }
        ensures rows { row self.new ≡ without c.number (row self.old) }
        ensures limit { self.new.limit ≡ self.old.limit }
    {
        let next = span.at + HEAD + span.size;
        self.area.copy_within(next..self.used, span.at);
        self.used -= HEAD + span.size;
        self.records -= 1;
        self.counts[c.index()] -= 1;
    }
}
