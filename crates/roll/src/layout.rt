// How a record lies in an area: its connection, the length of its message in two bytes, the low one first, and the message.
ghost use Rattle.std.specs.Prelude.{◌≡◌, ◌+◌, ◌≤◌, [], ◌++◌, length, take, drop, MatchOption};
ghost use Rattle.area.specs.Writes.{written};
ghost use Rattle.roll_records.specs.Records.{head, encode, length_at, decode, messages, Laid, First};

use area::store;
use connection::{CONNECTIONS, Connection};
use mailbox::{LONGEST, Message};

// What stands before a message.
pub(super) const HEAD: usize = 3;

// The bytes of one longest message of each connection.
pub(super) const PLACE: usize = CONNECTIONS * (HEAD + LONGEST);

// Where a record begins, and how long its message is.
#[derive(Clone, Copy, PartialEq, Eq, Debug)]
pub(super) struct Span {
    pub(super) at: usize,
    pub(super) size: usize,
}

// What stands before a message for c.
fn head_for(c: Connection, message: Message<'_>) -> [u8; HEAD]
    ensures { result ≡ head c.number message.entry.bytes.now }
{
    let [low, high] = (message.bytes.len() as u16).to_le_bytes();
    [c.number, low, high]
}

// How long the message is whose record begins at a place.
fn size_at(area: &[u8], at: usize) -> usize
    requires { at + 3 ≤ length area.now }
    ensures { result ≡ length_at area.now at }
{
    usize::from(u16::from_le_bytes([area[at + 1], area[at + 2]]))
}

// Writes a record at a place, and answers where it ends.
pub(super) fn write_record(area: &mut [u8], at: usize, c: Connection, message: Message<'_>) -> usize
    requires { at + 3 + length message.bytes.now ≤ length area.old }
    ensures end { result ≡ at + (3 + length message.entry.bytes.now) }
    ensures after { area.new ≡ written area.old at (head c.number message.entry.bytes.now ++ message.entry.bytes.now) }
{
    let from = store(area, at, &head_for(c, message)).unwrap();
    store(area, from, message.bytes).unwrap()
}

// The message of a record.
pub(super) fn message_of(area: &[u8], span: Span) -> &[u8]
    requires { span.at + 3 + span.size ≤ length area.now }
    ensures { result.now ≡ take span.size (drop (span.at + 3) area.now) }
{
    let from = span.at + HEAD;
    &area[from..from + span.size]
}

// The first of so many records that is one of c.
pub(super) fn find(area: &[u8], records: usize, c: Connection) -> Option<Span>
    requires { Laid records area.now }
    ensures { MatchOption result (messages c.number (decode records area.now) ≡ []) (λ r. First area.now records (length (encode (decode records area.now))) c.number r.at r.size) }
{
    let mut at = 0;
    // where a record begins is known only from the lengths of those before it
    for _k in 0..records {
        let size = size_at(area, at);
        if area[at] == c.number {
            return Some(Span { at, size });
        }
        at += HEAD + size;
    }
    None
}
