// Signatures: the types of values, spelled by codes.
#![tactic(auto)]

pub mod codes;
pub mod grammar;

pub use codes::{Alignment, Basic, Head, NoCode};
pub use grammar::{element_end, first_type, is_signature, is_single, judged_examples};
