// Which bytes are a signature, and where a type in them ends.
ghost use Rattle.std.specs.Prelude.{◌≡◌, ℕ, true, false, List, [], ◌∷◌, Decides, MatchOption, ◌≢◌};
ghost use Rattle.signature.specs.Trees.{Trees, Signature as Signed, Single, EndsAt, ElementEnds, SpelledOnce};
ghost use Rattle.signature.specs.Phrases.{TypeAt, ElementAt, EntryAt, MembersAt, Types};
ghost use Rattle.signature.specs.Examples.{Examples};

use crate::codes::{Basic, Head};

// The longest signature.
const LONGEST: usize = 255;

// The most arrays around one another, and the most structs and dict entries.
const DEEPEST: usize = 32;

// What follows a code, if `s` begins with it.
fn after(s: &[u8], code: u8) -> Option<&[u8]>
    ensures { MatchOption result ((xs : List ℕ) → s.now ≢ code ∷ xs) (λ rest. s.now ≡ code ∷ rest.now) }
{
    let (first, rest) = s.split_first()?;
    (*first == code).then_some(rest)
}

// What follows the complete type at the front, if there is one with at most so many arrays and structs.
// The two numbers stay two: each step inside lowers one of them, or neither, so a struct of both would be taken apart at each.
#[cycle(complete_element_entry_members)]
fn complete(s: &[u8], arrays: usize, structs: usize) -> Option<&[u8]>
    ensures { MatchOption result ((left : List ℕ) → TypeAt s.now arrays structs left → ⊥) (λ left. TypeAt s.now arrays structs left.now) }
{
    let (first, rest) = s.split_first()?;
    match Head::try_from(*first).ok()? {
        Head::Basic(_) | Head::Variant => Some(rest),
        Head::Array => element(rest, arrays.checked_sub(1)?, structs),
        Head::Struct => members(rest, arrays, structs.checked_sub(1)?),
        Head::Entry => None,
    }
}

// The same of what an array is of, a complete type or a dict entry.
#[cycle(complete_element_entry_members)]
fn element(s: &[u8], arrays: usize, structs: usize) -> Option<&[u8]>
    ensures { MatchOption result ((left : List ℕ) → ElementAt s.now arrays structs left → ⊥) (λ left. ElementAt s.now arrays structs left.now) }
{
    match after(s, b'{') {
        Some(inner) => entry(inner, arrays, structs.checked_sub(1)?),
        None => complete(s, arrays, structs),
    }
}

// The same of a dict entry, after its `{`.
#[cycle(complete_element_entry_members)]
fn entry(s: &[u8], arrays: usize, structs: usize) -> Option<&[u8]>
    ensures { MatchOption result ((left : List ℕ) → EntryAt s.now arrays structs left → ⊥) (λ left. EntryAt s.now arrays structs left.now) }
{
    let (key, value) = s.split_first()?;
    let _ = Basic::try_from(*key).ok()?;
    after(complete(value, arrays, structs)?, b'}')
}

// The same of the members of a struct, after its `(`.
#[cycle(complete_element_entry_members)]
fn members(s: &[u8], arrays: usize, structs: usize) -> Option<&[u8]>
    ensures { MatchOption result ((left : List ℕ) → MembersAt s.now arrays structs left → ⊥) (λ left. MembersAt s.now arrays structs left.now) }
{
    let rest = complete(s, arrays, structs)?;
    // no `or_else`: its closure would be one more step of this recursion, with a measure of its own
    match after(rest, b')') {
        Some(left) => Some(left),
        None => members(rest, arrays, structs),
    }
}

// Whether bytes are nothing but complete types.
fn are_types(s: &[u8]) -> bool
    ensures { Decides result (Types s.now) }
{
    let mut rest = s;
    while !rest.is_empty() {
        match complete(rest, DEEPEST, DEEPEST) {
            Some(left) => rest = left,
            None => return false,
        }
    }
    true
}

// Where the first complete type of a signature ends; None where the bytes are no signature.
// It is 0 where there is no type: what stands before the other types is then empty, and an Option in it would say no more.
pub fn first_type(bytes: &[u8]) -> Option<usize>
    ensures { MatchOption result (Signed bytes.now → ⊥) (λ n. (s : Signed bytes.now) × EndsAt s.types bytes.now n) }
{
    if bytes.len() > LONGEST {
        return None;
    }
    if bytes.is_empty() {
        return Some(0);
    }
    let rest = complete(bytes, DEEPEST, DEEPEST)?;
    are_types(rest).then_some(bytes.len() - rest.len())
}

// Whether bytes are a signature. A signature spells one list of types.
pub fn is_signature(bytes: &[u8]) -> bool
    ensures value { Decides result (Signed bytes.now) }
    ensures once { SpelledOnce }
{
    first_type(bytes).is_some()
}

// Whether bytes are the signature of exactly one complete type.
pub fn is_single(bytes: &[u8]) -> bool
    ensures { Decides result (Single bytes.now) }
{
    first_type(bytes).is_some_and(|end| end > 0 && end == bytes.len())
}

// Where the element at the front ends, a complete type or a dict entry, however deep.
pub fn element_end(bytes: &[u8]) -> Option<usize>
    ensures { MatchOption result ((n : ℕ) → ElementEnds bytes.now n → ⊥) (λ n. ElementEnds bytes.now n) }
{
    let rest = element(bytes, usize::MAX, usize::MAX)?;
    Some(bytes.len() - rest.len())
}

// How the examples are judged: `a{sv}`, `a{vs}`, `()`, `a`, and 32 and 33 times `a` before `y`.
pub fn judged_examples() -> [bool; 6]
    ensures { (result ≡ true ∷ false ∷ false ∷ false ∷ true ∷ false ∷ []) × Examples }
{
    [
        is_signature(b"a{sv}"),
        is_signature(b"a{vs}"),
        is_signature(b"()"),
        is_signature(b"a"),
        is_signature(b"aaaaaaaaaaaaaaaaaaaaaaaaaaaaaaaay"),
        is_signature(b"aaaaaaaaaaaaaaaaaaaaaaaaaaaaaaaaay"),
    ]
}
