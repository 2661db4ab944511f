// Rows of a recorded stream: calls, and the answers that were recorded.
#![tactic(auto)]

mod answer;
mod call;
mod fault;
mod hex;
mod refusal;
mod text;
mod verb;
mod words;

pub use answer::{Answer, Form, agrees, is_answer, read_answer};
pub use call::{Call, read_call};
pub use fault::Fault;
pub use hex::Hex;
pub use refusal::Refusal;
pub use text::{content, unhex};
pub use verb::Verb;
