// The numbers of connections.
#![tactic(auto)]

ghost use Rattle.std.specs.Prelude.{◌≡◌, ◌<◌};

// How many connections there may be.
pub const CONNECTIONS: usize = 16;

// The number of a connection, 0 to 15.
#[derive(Clone, Copy, PartialEq, Eq, Debug)]
pub struct Connection {
    pub number: u8,
    ghost within: { number < 16 },
}

// A number above 15, which no connection has.
#[derive(Clone, Copy, PartialEq, Eq, Debug)]
pub struct NoConnection;

impl TryFrom<u8> for Connection {
    ghost use Rattle.connection.specs.Connections.{Numbers};

    type Error = NoConnection;

    ghost try_from_gives = { Numbers };

    fn try_from(number: u8) -> Result<Connection, NoConnection> {
        if usize::from(number) < CONNECTIONS {
            Ok(Connection { number })
        } else {
            Err(NoConnection)
        }
    }
}

impl Connection {
    // The place of the connection in a table of all.
    pub fn index(self) -> usize
        ensures is { result ≡ self.number }
        ensures within { result < 16 }
    {
        usize::from(self.number)
    }
}
