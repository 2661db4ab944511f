// The elements of paths and names.
ghost use Rattle.std.specs.Prelude.{ℕ, ◌<◌, ◌≤◌, length, Decides, slice_index};
ghost use Rattle.text.specs.Grammar.{Hyphened, DigitFirst, Holds, Begins, Element, Led, Dotted};
ghost use Rattle.text.specs.Scans.{After, AfterLed};

// What an element is a part of.
#[derive(Clone, Copy)]
pub(crate) enum Kind {
    Path,
    // a member, interface or error name
    Name,
    WellKnown,
    Unique,
}

impl Kind {
    fn may_hold_hyphen(self) -> bool
        ensures { Decides result (Hyphened self) }
    {
        matches!(self, Kind::WellKnown | Kind::Unique)
    }

    fn may_begin_with_digit(self) -> bool
        ensures { Decides result (DigitFirst self) }
    {
        matches!(self, Kind::Path | Kind::Unique)
    }

    fn may_hold(self, byte: u8) -> bool
        ensures { Decides result (Holds self byte) }
    {
        byte.is_ascii_alphanumeric() || byte == b'_' || (byte == b'-' && self.may_hold_hyphen())
    }

    fn may_begin_with(self, byte: u8) -> bool
        ensures { Decides result (Begins self byte) }
    {
        self.may_hold(byte) && (!byte.is_ascii_digit() || self.may_begin_with_digit())
    }
}

// How many bytes at the front an element may hold. In this and what follows the bytes change from step to step and the
// kind does not, so the two are no struct.
fn run(bytes: &[u8], kind: Kind) -> usize
    ensures within { result ≤ length bytes.now }
    ensures before { (k : ℕ) → k < result → Holds kind (slice_index bytes.now k) }
    ensures ended { result < length bytes.now → Holds kind (slice_index bytes.now result) → ⊥ }
{
    bytes
        .iter()
        .position(|b| !kind.may_hold(*b))
        .unwrap_or(bytes.len())
}

// What follows the element at the front of the bytes; None where there is no element.
fn after_element(bytes: &[u8], kind: Kind) -> Option<&[u8]>
    ensures { After kind bytes.now result }
{
    let (first, rest) = bytes.split_first()?;
    if !kind.may_begin_with(*first) {
        return None;
    }
    Some(&rest[run(rest, kind)..])
}

// What follows a separator and the element behind it; None where they are not at the front of the bytes.
fn after_led(bytes: &[u8], separator: u8, kind: Kind) -> Option<&[u8]>
    requires { Holds kind separator → ⊥ }
    ensures { AfterLed separator kind bytes.now result }
{
    after_element(bytes.strip_prefix(&[separator])?, kind)
}

// Whether the bytes are one element.
pub(crate) fn is_element(bytes: &[u8], kind: Kind) -> bool
    ensures { Decides result (Element kind bytes.now) }
{
    after_element(bytes, kind).is_some_and(|rest| rest.is_empty())
}

// Whether the bytes are one or more elements, the separator before each.
pub(crate) fn is_led(bytes: &[u8], separator: u8, kind: Kind) -> bool
    requires { Holds kind separator → ⊥ }
    ensures { Decides result (Led separator kind bytes.now) }
{
    let mut left = bytes;
    while let Some(rest) = after_led(left, separator, kind) {
        if rest.is_empty() {
            return true;
        }
        left = rest;
    }
    false
}

// Whether the bytes are two or more elements, a `.` between them.
pub(crate) fn is_dotted(bytes: &[u8], kind: Kind) -> bool
    ensures { Decides result (Dotted kind bytes.now) }
{
    after_element(bytes, kind).is_some_and(|rest| is_led(rest, b'.', kind))
}
