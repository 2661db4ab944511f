// The items of a message: padding, values that hold no others, the heads of arrays, the types of variants.
#![tactic(auto)]

pub mod fault;
mod read;

pub use fault::{Cause, Fault, Flaw, Part};
pub use read::{Place, gap};

// The bytes from one place up to another; a type of its own, since a Range is no Copy.
#[derive(Clone, Copy)]
pub struct Span {
    pub from: usize,
    pub to: usize,
}
