// The byte order of a message: how the bytes of a number lie in it.
#![tactic(auto)]

ghost use Rattle.std.specs.Prelude.{◌≡◌, ℕ, List, reverse, length, refl};
ghost use Rattle.std.proofs.lemmas.List.{reverse-reverse, length-reverse};
ghost use Rattle.std.specs.List.{AllByRecursion};
ghost use Rattle.order.specs.Numbers.{Byte, Keeps, Mirrors, as_they_lie, number, bytes_of};
ghost use Rattle.order.specs.Spreads.{all_reverse};

// An order of bytes. Code over any order is proved once, from its laws.
// Each width has its own functions: a method of a trait with a const parameter cannot be stated today.
pub trait ByteOrder {
    // the bytes as they lie, put the least significant first; and back
    ghost ordered: { List ℕ → List ℕ };

    // Puts bytes as they lie least significant first, or back.
    fn arrange(bytes: &mut [u8])
        ensures { bytes.new ≡ ordered bytes.old };

    fn u16_of(mut bytes: [u8; 2]) -> u16
        ensures { result ≡ number (ordered bytes) }
    {
        Self::arrange(&mut bytes);
        u16::from_le_bytes(bytes)
    }

    fn u32_of(mut bytes: [u8; 4]) -> u32
        ensures { result ≡ number (ordered bytes) }
    {
        Self::arrange(&mut bytes);
        u32::from_le_bytes(bytes)
    }

    fn u64_of(mut bytes: [u8; 8]) -> u64
        ensures { result ≡ number (ordered bytes) }
    {
        Self::arrange(&mut bytes);
        u64::from_le_bytes(bytes)
    }

    fn bytes_of_u16(x: u16) -> [u8; 2]
        ensures { result ≡ ordered (bytes_of 2 x) }
    {
        let mut bytes = x.to_le_bytes();
        Self::arrange(&mut bytes);
        bytes
    }

    fn bytes_of_u32(x: u32) -> [u8; 4]
        ensures { result ≡ ordered (bytes_of 4 x) }
    {
        let mut bytes = x.to_le_bytes();
        Self::arrange(&mut bytes);
        bytes
    }

    fn bytes_of_u64(x: u64) -> [u8; 8]
        ensures { result ≡ ordered (bytes_of 8 x) }
    {
        let mut bytes = x.to_le_bytes();
        Self::arrange(&mut bytes);
        bytes
    }

    ghost twice: { (xs : List ℕ) → ordered (ordered xs) ≡ xs };

    ghost size: { (xs : List ℕ) → length (ordered xs) ≡ length xs };

    ghost bytes: { (xs : List ℕ) → AllByRecursion Byte xs → AllByRecursion Byte (ordered xs) };
}

// The least significant byte first.
#[derive(Clone, Copy)]
pub struct Little;

// The most significant byte first.
#[derive(Clone, Copy)]
pub struct Big;

impl ByteOrder for Little {
    ghost ordered = { as_they_lie };

    ghost twice = { λ xs. refl };

    ghost size = { λ xs. refl };

    ghost bytes = { λ xs h. h };

    fn arrange(_bytes: &mut [u8]) {}
}

impl ByteOrder for Big {
    ghost ordered = { reverse };

    ghost twice = { λ xs. reverse-reverse xs };

    ghost size = { λ xs. length-reverse xs };

    ghost bytes = { λ xs h. all_reverse Byte xs h };

    fn arrange(bytes: &mut [u8]) {
        bytes.reverse();
    }
}

// What is written reads back as the same number, at every width.
pub fn reread<O: ByteOrder>(x: u64) -> u64
    ensures value { result ≡ x }
    ensures law { Keeps O.ByteOrder.ordered }
{
    O::u64_of(O::bytes_of_u64(x))
}

// Bytes that are read and written again are the same bytes.
pub fn rewrite<O: ByteOrder>(bytes: [u8; 8]) -> [u8; 8]
    ensures { result ≡ bytes }
{
    O::bytes_of_u64(O::u64_of(bytes))
}

// The bytes of the same number in the other order: the two orders are each other's mirror, at every width.
pub fn mirrored(bytes: [u8; 8]) -> [u8; 8]
    ensures value { result ≡ reverse bytes }
    ensures law { Mirrors as_they_lie reverse }
{
    Big::bytes_of_u64(Little::u64_of(bytes))
}
