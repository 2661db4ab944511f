// Text, object paths and names: which bytes are one.
#![tactic(auto)]

ghost use Rattle.std.specs.Prelude.{◌≡◌, true, Decides};
ghost use Rattle.text.specs.Texts.{Text};
ghost use Rattle.text.specs.Grammar.{Path, Member, Interface, Told};
ghost use Rattle.text.specs.Examples.{Examples};

mod element;

use element::{Kind, is_dotted, is_element, is_led};

// The longest name.
const LONGEST: usize = 255;

// The kinds of bus names.
#[derive(Clone, Copy, PartialEq, Eq, Debug)]
pub enum BusName {
    Unique,
    WellKnown,
}

// Whether the bytes are a text, the value of an `s`: UTF-8 without a zero byte.
pub fn is_text(bytes: &[u8]) -> bool
    ensures { Decides result (Text bytes.now) }
{
    !bytes.contains(&0) && std::str::from_utf8(bytes).is_ok()
}

// Whether the bytes are an object path.
pub fn is_path(bytes: &[u8]) -> bool
    ensures { Decides result (Path bytes.now) }
{
    bytes == b"/".as_slice() || is_led(bytes, b'/', Kind::Path)
}

// Whether the bytes are a member name.
pub fn is_member(bytes: &[u8]) -> bool
    ensures { Decides result (Member bytes.now) }
{
    bytes.len() <= LONGEST && is_element(bytes, Kind::Name)
}

// Whether the bytes are an interface name, or an error name, which is spelled alike.
pub fn is_interface(bytes: &[u8]) -> bool
    ensures { Decides result (Interface bytes.now) }
{
    bytes.len() <= LONGEST && is_dotted(bytes, Kind::Name)
}

// Which kind of bus name the bytes are; None where they are none. It is no conversion: the name stays bytes.
pub fn bus_name(bytes: &[u8]) -> Option<BusName>
    ensures { Told bytes.now result }
{
    if bytes.len() > LONGEST {
        return None;
    }
    match bytes.split_first() {
        Some((b':', name)) if is_dotted(name, Kind::Unique) => Some(BusName::Unique),
        _ if is_dotted(bytes, Kind::WellKnown) => Some(BusName::WellKnown),
        _ => None,
    }
}

// Whether the bytes are this kind of bus name; with None, whether they are no bus name.
fn tells(bytes: &[u8], kind: Option<BusName>) -> bool
    ensures { Decides result (Told bytes.now kind) }
{
    bus_name(bytes) == kind
}

// Whether examples of bus names are told as what they are.
pub fn name_examples() -> bool
    ensures agrees { result ≡ true }
    ensures theorem { Examples }
{
    tells(b"org.melt", Some(BusName::WellKnown))
        && tells(b":1.2", Some(BusName::Unique))
        && tells(b"melt", None)
        && tells(b"org.2melt", None)
}
