// The server's side of the D-Bus handshake of one connection, for the mechanism EXTERNAL.
#![tactic(auto)]

pub mod conversation;
pub mod credential;
pub mod machine;
pub mod parse;
pub mod reply;
