// The calls that open, greet and close a life.
ghost use Rattle.std.specs.Prelude.{◌≡◌, length};
ghost use Rattle.lives.specs.Calls.{life as standing, opened, lined, closed, begun_at};
ghost use Rattle.handshake.specs.Machine.{counted, filled};

use crate::table::Lives;
use connection::{Connection, NoConnection};
use handshake::machine::{Handshake, Refusal as LineRefusal};

// Why a call is refused.
#[derive(Clone, Copy, PartialEq, Eq, Debug)]
pub enum Refusal {
    // the connection number is above 15, or, except for open, has no life
    NoLife,
    // the connection number has a life
    Taken,
    // the handshake refused the line
    Line(LineRefusal),
}

impl From<NoConnection> for Refusal {
    ghost use Rattle.lives.specs.declared.calls.Refusal.TheVariants.{NoLife};

    ghost from_gives = { λ _ refusal. refusal ≡ NoLife };

    fn from(_no_connection: NoConnection) -> Self {
        Self::NoLife
    }
}

impl From<LineRefusal> for Refusal {
    ghost use Rattle.lives.specs.declared.calls.Refusal.TheVariants.{Line};

    ghost from_gives = { λ reason refusal. refusal ≡ Line reason };

    fn from(reason: LineRefusal) -> Self {
        Self::Line(reason)
    }
}

// The number by which hosts know the refusal.
impl From<Refusal> for u8 {
    ghost use Rattle.lives.specs.Calls.{numbered};

    ghost from_gives = { λ refusal n. n ≡ numbered refusal };

    fn from(refusal: Refusal) -> u8 {
        match refusal {
            Refusal::NoLife => 1,
            Refusal::Taken => 2,
            Refusal::Line(reason) => u8::from(reason),
        }
    }
}

// The table and the id are told by clauses apart: one clause over both would owe the invariant of the new table.
impl Lives {
    // Whether c has a life that has begun.
    pub fn has_begun(&self, c: u8) -> bool
        ensures { result ≡ begun_at (standing self.now.table c) }
    {
        let Ok(c) = Connection::try_from(c) else {
            return false;
        };
        self.table[c.index()].is_some_and(|life| life.has_begun())
    }

    // Begins a life at c for a program of the user.
    pub fn open(&mut self, c: u8, uid: u32) -> Result<(), Refusal>
        ensures answer { result ≡ (opened self.old.table c uid).answer }
        ensures lives { self.new.table ≡ (opened self.old.table c uid).lives }
        ensures id { self.new.id ≡ self.old.id }
    {
        let c = Connection::try_from(c)?;
        let place = &mut self.table[c.index()];
        if place.is_some() {
            return Err(Refusal::Taken);
        }
        *place = Some(Handshake::new(uid));
        Ok(())
    }

    // Gives the life at c a line. The answer is written to the buffer's front, and its length is answered.
    // The buffer is lent by the host, and nothing is allocated.
    pub fn line(&mut self, c: u8, line: &[u8], out: &mut [u8]) -> Result<usize, Refusal>
        ensures answer { result ≡ counted (lined self.old.table self.old.id c line.now (length out.old)).answer }
        ensures lives { self.new.table ≡ (lined self.old.table self.old.id c line.now (length out.old)).lives }
        ensures buffer { out.new ≡ filled (lined self.old.table self.old.id c line.now (length out.old)).answer out.old }
        ensures id { self.new.id ≡ self.old.id }
    {
        let c = Connection::try_from(c)?;
        let Lives { id, table } = self;
        let place = &mut table[c.index()];
        let life = place.as_mut().ok_or(Refusal::NoLife)?;
        let answer = life.line(id, line, out);
        if answer == Err(LineRefusal::EarlyBegin) {
            *place = None;
        }
        Ok(answer?)
    }

    // Ends the life at c.
    pub fn close(&mut self, c: u8) -> Result<(), Refusal>
        ensures answer { result ≡ (closed self.old.table c).answer }
        ensures lives { self.new.table ≡ (closed self.old.table c).lives }
        ensures id { self.new.id ≡ self.old.id }
    {
        let c = Connection::try_from(c)?;
        if self.table[c.index()].take().is_none() {
            return Err(Refusal::NoLife);
        }
        Ok(())
    }
}
