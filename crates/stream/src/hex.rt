// Bytes as hex digits.
ghost use Rattle.std.specs.Prelude.{Some};
ghost use Rattle.stream.specs.Spelling.{hex};

use hex_digits::pair;
use std::fmt;

// Bytes that are shown as a word of a row: each as two lower-case hex digits, or `-` for none.
#[derive(Clone, Copy, Debug)]
pub struct Hex<'a>(pub &'a [u8]);

impl fmt::Display for Hex<'_> {
    ghost output = { λ x. Some (hex x.0.now) };

    fn fmt<W: fmt::Write>(&self, f: &mut fmt::Formatter<W>) -> fmt::Result {
        let bytes = self.0;
        if bytes.is_empty() {
            return f.write_str("-");
        }
        // Not `{b:02x}`: its proof needs that each byte is below 256, which is not known of a slice in a field.
        for b in bytes {
            let [high, low] = pair(*b);
            f.write_char(char::from(high))?;
            f.write_char(char::from(low))?;
        }
        Ok(())
    }
}
