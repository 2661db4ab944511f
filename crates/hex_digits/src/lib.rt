// Bytes in hex.
#![tactic(auto)]

ghost use Rattle.std.specs.Prelude.{◌≡◌, [], ◌∷◌, ◌<◌, get_or};
ghost use Rattle.hex_digits.specs.Hex.{digit, pairs};

// The lower-case digit of a number below 16.
fn digit_of(n: u8) -> u8
    requires { n < 16 }
    ensures value { result ≡ digit n }
    ensures ascii { result < 128 }
{
    if n < 10 { b'0' + n } else { b'a' + (n - 10) }
}

// A byte as two lower-case digits, the high one first.
pub fn pair(byte: u8) -> [u8; 2]
    ensures digits { result ≡ pairs (byte ∷ []) }
    ensures ascii { (get_or result 0 0 < 128) × (get_or result 1 0 < 128) }
{
    [digit_of(byte / 16), digit_of(byte % 16)]
}
