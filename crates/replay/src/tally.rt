// How many calls were made, and how they went.
ghost use Rattle.std.specs.Prelude.{◌≡◌, ◌+◌};
ghost use Rattle.replay.specs.Counts.{once_more, more, counted, none, total};
ghost use Rattle.stream.specs.Replies.{denied};

use stream::{Answer, Call};

// The calls of one kind. A refused call is made too.
#[derive(Clone, Copy, PartialEq, Eq, Debug, Default)]
pub struct Count {
    pub made: u64,
    pub refused: u64,
}

impl Count {
    // One call more.
    fn add(&mut self, refused: bool)
        ensures { self.new ≡ once_more self.old refused }
    {
        self.made = self.made.saturating_add(1);
        if refused {
            self.refused = self.refused.saturating_add(1);
        }
    }
}

// What a replay has accomplished.
#[derive(Clone, Copy, PartialEq, Eq, Debug, Default)]
pub struct Tally {
    pub buses: u64,
    pub opens: Count,
    pub lines: Count,
    pub closes: Count,
    // handshakes that a line finished
    pub finished: u64,
    // answers that are the recorded ones
    pub agreed: u64,
}

impl Tally {
    // Nothing yet.
    pub fn new() -> Tally
        ensures { result ≡ none }
    {
        Tally::default()
    }

    // Counts a call, by the answer that came.
    pub fn note(&mut self, call: &Call, came: &Answer)
        ensures { self.new ≡ counted call.now (denied came.now) self.old }
    {
        let refused = came.is_refused();
        match call {
            Call::Bus { .. } => self.buses = self.buses.saturating_add(1),
            Call::Open { .. } => self.opens.add(refused),
            Call::Line { .. } => self.lines.add(refused),
            Call::Close { .. } => self.closes.add(refused),
            Call::Message { .. } | Call::Tick { .. } | Call::Take { .. } => {}
        }
    }

    // How many calls were made in all.
    pub fn calls(&self) -> u64
        ensures { result ≡ total self.now }
    {
        self.opens
            .made
            .saturating_add(self.lines.made)
            .saturating_add(self.closes.made)
    }
}
