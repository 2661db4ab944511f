// The values of a message, and whether they lie as their types ask.
#![tactic(auto)]

ghost use Rattle.std.specs.Prelude.{Decides};
ghost use Rattle.values.specs.Values.{Read, Decided, Spelled};

mod walk;

use items::{Cause, Flaw, Span};
use order::ByteOrder;
use signature::is_signature;
use walk::walked;

// Whether a span lies in the message and holds a signature.
fn spells(bytes: &[u8], codes: Span) -> bool
    ensures { Decides result (Spelled bytes.now codes) }
{
    bytes
        .get(codes.from..codes.to)
        .is_some_and(|types| is_signature(types))
}

// Where the values end that lie from `at` on, of the types of a signature that lies in the message too; or the first flaw.
// `end` is the end of the part of the message that they are in. The four are told apart only here: from here on they are a walk.
#[tactic(auto, using(crate::proofs::Once::decided))]
pub fn values<O: ByteOrder>(bytes: &[u8], codes: Span, at: usize, end: usize) -> Result<usize, Flaw>
    ensures value { Read O.ByteOrder.ordered bytes.now codes at end result }
    ensures once { Decided }
{
    if at > end || end > bytes.len() {
        return Err(Cause::PastEnd.at(at));
    }
    if !spells(bytes, codes) {
        return Err(Cause::Signature.at(codes.from));
    }
    walked::<O>(bytes, codes, at, end)
}
