// The examples of docs/, as tests of the crates.
#![tactic(auto)]

#[cfg(test)]
mod digits;
#[cfg(test)]
mod handshakes;
#[cfg(test)]
mod rows;
