// The text by which a program shows who it is.
ghost use Rattle.std.specs.Prelude.{◌≡◌};
ghost use Rattle.std.specs.Str.{bytes_eq};
ghost use Rattle.handshake.specs.Texts.{credential as credentials};

// Whether the text is the hex form of the uid in decimal. A decimal digit in hex is '3' and the digit.
#[tactic(auto, using(crate::proofs::Credentials::by_last_digit))]
pub fn shows(text: &[u8], uid: u32) -> bool
    ensures { result ≡ bytes_eq text.now (credentials uid) }
{
    match text {
        [front @ .., b'3', last] if u32::from(*last) == u32::from(b'0') + uid % 10 => {
            if uid < 10 {
                front.is_empty()
            } else {
                shows(front, uid / 10)
            }
        }
        _ => false,
    }
}
