// The words of a row, one after another.
ghost use Rattle.std.specs.Prelude.{◌≡◌, ℕ, ◌^◌, ◌<◌, ◌≤◌, List, [], ◌∷◌, decimal, MatchOption, MatchResult, ◌≢◌};
ghost use Rattle.std.specs.Iterator.{YieldsFirstRef, item_count};
ghost use Rattle.stream.specs.Spelling.{hex, Bytes};
ghost use Rattle.stream.specs.Text.{cut, left};
ghost use Rattle.stream.specs.declared.fault.Fault.TheVariants.{OutOfMemory};

use crate::fault::Fault;
use crate::text::{find, number, unhex};
use std::alloc::Global;

// A type of numbers that a word may write. The bound `TryFrom<u64>` has no law of which number comes, so this trait states one.
pub(crate) trait Number: Sized {
    // the number that a value is
    ghost worth: { Self → ℕ };

    // the least number that the type does not have
    ghost bound: { ℕ };

    // The value of a number, if the type has it.
    fn narrowed(n: u64) -> Option<Self>
        ensures { MatchOption result (bound ≤ n) (λ x. (n < bound) × (worth x ≡ n)) };
}

impl Number for u8 {
    ghost worth = { λ n. n };

    ghost bound = { 2 ^ 8 };

    fn narrowed(n: u64) -> Option<u8> {
        u8::try_from(n).ok()
    }
}

impl Number for u16 {
    ghost worth = { λ n. n };

    ghost bound = { 2 ^ 16 };

    fn narrowed(n: u64) -> Option<u16> {
        u16::try_from(n).ok()
    }
}

impl Number for u32 {
    ghost worth = { λ n. n };

    ghost bound = { 2 ^ 32 };

    fn narrowed(n: u64) -> Option<u32> {
        u32::try_from(n).ok()
    }
}

impl Number for u64 {
    ghost worth = { λ n. n };

    ghost bound = { 2 ^ 64 };

    fn narrowed(n: u64) -> Option<u64> {
        Some(n)
    }
}

// What is left of a row: nothing, or a word and what follows. What the library promises of `split` depends on its closure.
#[derive(Drop)]
pub(crate) struct Words<'a> {
    // for the bytes that a word may write
    heap: Global,
    rest: Option<&'a [u8]>,
}

impl<'a> Words<'a> {
    pub(crate) fn new(heap: Global, row: &'a [u8]) -> Words<'a>
        ensures { left result ≡ cut row.now }
    {
        Words {
            heap,
            rest: Some(row),
        }
    }

    // The next word as a number of the type.
    pub(crate) fn number<T: Number>(&mut self) -> Result<T, Fault>
        ensures { MatchResult result (λ x. (T.worth x < T.bound) × (left self.old ≡ decimal (T.worth x) ∷ left self.new)) (λ e. (e ≢ OutOfMemory) × ((n : ℕ) (ws : List (List ℕ)) → n < T.bound → n < 2 ^ 64 → left self.old ≢ decimal n ∷ ws)) }
    {
        let text = self.next().ok_or(Fault::WrongCount)?;
        let n = number(text).ok_or(Fault::BadNumber)?;
        T::narrowed(n).ok_or(Fault::BadNumber)
    }

    // The next word as bytes.
    pub(crate) fn bytes(&mut self) -> Result<Vec<u8>, Fault>
        ensures { MatchResult result (λ v. Bytes v.items × (left self.old ≡ hex v.items ∷ left self.new)) (λ e. (e ≢ OutOfMemory) → (bs : List ℕ) (ws : List (List ℕ)) → Bytes bs → left self.old ≢ hex bs ∷ ws) }
    {
        let text = self.next().ok_or(Fault::WrongCount)?;
        unhex(self.heap, text)
    }

    // That no word is left.
    pub(crate) fn end(&self) -> Result<(), Fault>
        ensures { MatchResult result (λ _. left self.now ≡ []) (λ e. (e ≢ OutOfMemory) × (left self.now ≢ [])) }
    {
        if self.rest.is_some() {
            return Err(Fault::WrongCount);
        }
        Ok(())
    }
}

impl<'a> Iterator for Words<'a> {
    type Item = &'a [u8];

    ghost next_gives = { YieldsFirstRef left };

    ghost remaining = { item_count left };

    fn next(&mut self) -> Option<&'a [u8]> {
        let text = self.rest?;
        match find(text, b' ') {
            Some(end) => {
                self.rest = Some(&text[end + 1..]);
                Some(&text[..end])
            }
            None => {
                self.rest = None;
                Some(text)
            }
        }
    }
}
