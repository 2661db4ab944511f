// The text of a row: its words, numbers and bytes.
ghost use Rattle.std.specs.Prelude.{◌≡◌, ℕ, ◌^◌, ◌<◌, List, length, decimal, MatchOption, MatchResult, ◌≢◌, slice_index};
ghost use Rattle.hex_digits.specs.Hex.{digit};
ghost use Rattle.stream.specs.Spelling.{hex, Bytes, Without};
ghost use Rattle.stream.specs.Text.{Content};
ghost use Rattle.stream.specs.declared.fault.Fault.TheVariants.{BadHex, OutOfMemory};

use crate::fault::Fault;
use std::alloc::Global;

// The index of the first `byte` of `text`.
pub(crate) fn find(text: &[u8], byte: u8) -> Option<usize>
    ensures { MatchOption result (Without byte text.now) (λ i. (i < length text.now) × (slice_index text.now i ≡ byte) × ((k : ℕ) → k < i → slice_index text.now k ≢ byte)) }
{
    text.iter().position(|x| *x == byte)
}

// A row without its comment, and without the spaces before that or at its end.
pub fn content(row: &[u8]) -> &[u8]
    ensures { Content row.now result.now }
{
    let mark = find(row, b'#').unwrap_or(row.len());
    let mut text = &row[..mark];
    while let [front @ .., b' '] = text {
        text = front;
    }
    text
}

// The number that `text` writes in decimal, without leading zeros.
pub(crate) fn number(text: &[u8]) -> Option<u64>
    ensures { MatchOption result ((n : ℕ) → n < 2 ^ 64 → text.now ≢ decimal n) (λ n. (n < 2 ^ 64) × (text.now ≡ decimal n)) }
{
    match text {
        [] | [b'+', ..] | [b'0', _, ..] => None,
        _ => std::str::from_utf8(text).ok()?.parse::<u64>().ok(),
    }
}

// The value of a lower-case hex digit.
fn nibble(c: u8) -> Result<u8, Fault>
    ensures { MatchResult result (λ d. (d < 16) × (c ≡ digit d)) (λ e. (e ≡ BadHex) × ((d : ℕ) → d < 16 → c ≢ digit d)) }
{
    match c {
        b'0'..=b'9' => Ok(c - b'0'),
        b'a'..=b'f' => Ok(c - b'a' + 10),
        _ => Err(Fault::BadHex),
    }
}

// The bytes that `text` writes, each as two lower-case hex digits, or none as `-`.
pub fn unhex(heap: Global, text: &[u8]) -> Result<Vec<u8>, Fault>
    ensures { MatchResult result (λ v. Bytes v.items × (text.now ≡ hex v.items)) (λ e. (e ≡ OutOfMemory → 1 < length text.now) × ((e ≢ OutOfMemory) → (bs : List ℕ) → Bytes bs → text.now ≢ hex bs)) }
{
    let mut bytes = Vec::new(heap);
    if text == b"-".as_slice() {
        return Ok(bytes);
    }
    if text.is_empty() {
        return Err(Fault::BadHex);
    }
    let mut rest = text;
    while let [high, low, left @ ..] = rest {
        let high = nibble(*high)?;
        let low = nibble(*low)?;
        bytes.push(high * 16 + low)?;
        rest = left;
    }
    if rest.is_empty() {
        Ok(bytes)
    } else {
        Err(Fault::BadHex)
    }
}
