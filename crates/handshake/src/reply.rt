// What the server says, and how it is written.
ghost use Rattle.std.specs.Prelude.{◌≡◌, ◌≤◌, length};
ghost use Rattle.handshake.specs.Texts.{wording, onto};

use arrayvec::ArrayVec;
use hex_digits::pair;

// The bytes that the longest answer takes: OK, a space, 32 hex digits, CR and LF.
pub const ROOM: usize = 37;

// What a line is answered.
#[derive(Clone, Copy, PartialEq, Eq, Debug)]
pub enum Reply {
    // OK and the server's id
    Okay,
    // REJECTED EXTERNAL
    Rejected,
    // ERROR
    Error,
    // nothing is written
    Silence,
}

impl Reply {
    // The bytes of the answer.
    fn text(self, id: &[u8; 16]) -> ArrayVec<u8, ROOM>
        ensures { result.items ≡ wording id.now self }
    {
        let mut text = ArrayVec::new();
        match self {
            Reply::Okay => {
                text.try_extend_from_slice(b"OK ").unwrap();
                for byte in id {
                    text.try_extend_from_slice(&pair(*byte)).unwrap();
                }
                text.try_extend_from_slice(b"\r\n").unwrap();
            }
            Reply::Rejected => text
                .try_extend_from_slice(b"REJECTED EXTERNAL\r\n")
                .unwrap(),
            Reply::Error => text.try_extend_from_slice(b"ERROR\r\n").unwrap(),
            Reply::Silence => {}
        }
        text
    }

    // Writes the answer to the buffer's front, and answers how many bytes it has.
    pub(crate) fn write(self, id: &[u8; 16], out: &mut [u8]) -> usize
        requires { 37 ≤ length out.old }
        ensures count { result ≡ length (wording id.now self) }
        ensures after { out.new ≡ onto (wording id.now self) out.old }
    {
        let text = self.text(id);
        out[..text.len()].copy_from_slice(text.as_slice());
        text.len()
    }
}
