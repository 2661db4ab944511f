// The machine: what a line is answered, by the state and the line together.
ghost use Rattle.std.specs.Prelude.{◌≡◌, ℕ, List, [], ◌∷◌, ◌++◌, length, Decides};
ghost use Rattle.handshake.specs.Lines.{meant};
ghost use Rattle.handshake.specs.Law.{Exchange, exchanged, Conversation, Authenticated};
ghost use Rattle.handshake.specs.Machine.{begun, turn, heard, counted, filled, fresh, moved};

use crate::credential::shows;
use crate::parse::{Line, parse};
use crate::reply::{ROOM, Reply};

// How far the handshake has come.
#[derive(Clone, Copy, PartialEq, Eq, Debug)]
pub enum State {
    WaitingForAuth,
    WaitingForBegin,
    Begun,
}

// Why a line is refused.
#[derive(Clone, Copy, PartialEq, Eq, Debug)]
pub enum Refusal {
    // the buffer is shorter than the longest answer
    ShortBuffer = 3,
    // the handshake is over
    AlreadyBegun = 4,
    // BEGIN while waiting for AUTH: whoever owns the connection closes it
    EarlyBegin = 5,
}

// The number by which hosts know the refusal.
impl From<Refusal> for u8 {
    ghost use Rattle.handshake.specs.Machine.{number};

    ghost from_gives = { λ refusal n. n ≡ number refusal };

    fn from(refusal: Refusal) -> u8 {
        refusal as u8
    }
}

// The handshake of one connection.
#[derive(Clone, Copy, PartialEq, Eq, Debug)]
pub struct Handshake {
    uid: u32,
    state: State,
}

impl Handshake {
    // A new handshake, for a program of this user.
    pub fn new(uid: u32) -> Handshake
        ensures { result ≡ fresh uid }
    {
        Handshake {
            uid,
            state: State::WaitingForAuth,
        }
    }

    // Whether the handshake is over: after any conversation, exactly if the program has shown who it is.
    pub fn has_begun(&self) -> bool
        ensures value { result ≡ begun self.now.state }
        ensures law { (id : List ℕ) (xs : List Exchange) → Conversation id self.now.uid xs self.now.state → Decides result (Authenticated id self.now.uid xs) }
    {
        self.state == State::Begun
    }

    // What the line is answered, and the state that it leads to.
    fn step(&mut self, line: Line<'_>) -> Result<Reply, Refusal>
        ensures answer { result ≡ (turn self.old.state self.old.uid (meant line.entry)).answer }
        ensures after { self.new ≡ moved self.old (turn self.old.state self.old.uid (meant line.entry)).next }
    {
        match (self.state, line) {
            (State::WaitingForAuth, Line::External(text)) if shows(text, self.uid) => {
                self.state = State::WaitingForBegin;
                Ok(Reply::Okay)
            }
            (State::WaitingForAuth, Line::External(_) | Line::Auth | Line::Error) => Ok(
                Reply::Rejected,
            ),
            (State::WaitingForAuth, Line::Begin) => Err(Refusal::EarlyBegin),
            (State::WaitingForAuth, Line::Cancel | Line::Unknown) => Ok(Reply::Error),
            (State::WaitingForBegin, Line::Begin) => {
                self.state = State::Begun;
                Ok(Reply::Silence)
            }
            (State::WaitingForBegin, Line::Cancel | Line::Error) => {
                self.state = State::WaitingForAuth;
                Ok(Reply::Rejected)
            }
            (State::WaitingForBegin, _) => Ok(Reply::Error),
            (State::Begun, _) => Err(Refusal::AlreadyBegun),
        }
    }

    // Gives the handshake a line. The answer is written to the buffer's front, and its length is answered.
    // The buffer is lent by the host, and nothing is allocated.
    pub fn line(&mut self, id: &[u8; 16], line: &[u8], out: &mut [u8]) -> Result<usize, Refusal>
        ensures answer { result ≡ counted (heard self.old.state self.old.uid id.now line.now (length out.old)).answer }
        ensures after { self.new ≡ moved self.old (heard self.old.state self.old.uid id.now line.now (length out.old)).next }
        ensures buffer { out.new ≡ filled (heard self.old.state self.old.uid id.now line.now (length out.old)).answer out.old }
        ensures grows { (xs : List Exchange) → Conversation id.now self.old.uid xs self.old.state → Conversation id.now self.old.uid (xs ++ (exchanged line.now out.old result out.new ∷ [])) self.new.state }
    {
        if out.len() < ROOM {
            return Err(Refusal::ShortBuffer);
        }
        let reply = self.step(parse(line))?;
        Ok(reply.write(id, out))
    }
}
