// The table of sixteen connections, and the life of each.
#![tactic(auto)]

pub mod calls;
pub mod table;
