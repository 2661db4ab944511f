// Makes the calls of a recorded stream, and counts them.
#![tactic(auto)]

pub mod perform;
pub mod tally;
