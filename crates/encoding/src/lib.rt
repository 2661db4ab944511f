// The law of encodings: bytes are read as values of types exactly if they are the encoding of some.
#![tactic(auto)]

ghost use Rattle.std.specs.Prelude.{ℕ, ◌^◌, ◌<◌, length, MatchOption};
ghost use Rattle.encoding.specs.Encodings.{EncodedAt, Law};
ghost use Rattle.encoding.specs.Examples.{Examples};

use items::Span;
use order::ByteOrder;
use values::values;

// Where the values end that lie from `at` on, if the bytes up to there are the encoding of some, of the types of a signature
// that lies in the message too; `end` is the end of the part that they are in.
pub fn encoded_end<O: ByteOrder>(bytes: &[u8], codes: Span, at: usize, end: usize) -> Option<usize>
    ensures value { length bytes.now < 2 ^ 32 → MatchOption result ((q : ℕ) → EncodedAt O.ByteOrder.ordered bytes.now codes at end q → ⊥) (λ q. EncodedAt O.ByteOrder.ordered bytes.now codes at end q) }
    ensures law { Law }
    ensures examples { Examples }
{
    values::<O>(bytes, codes, at, end).ok()
}
