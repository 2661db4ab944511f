// The answers.
ghost use Rattle.lint.specs.Answers.{Right};

use crate::question::Kind;
use signature::is_signature;
use text::{BusName, bus_name, is_interface, is_member, is_path, is_text};

// Whether bytes are what they are said to be. Only a bus name is told with its kind, so this is no Option of one.
#[derive(Clone, Copy)]
pub enum Verdict {
    No,
    Yes,
    Named(BusName),
}

impl Verdict {
    pub fn is_yes(self) -> bool {
        !matches!(self, Verdict::No)
    }

    // What is printed in front of the line; two texts for one value, so neither is its Display.
    pub fn word(self) -> &'static str {
        if self.is_yes() { "yes" } else { "no" }
    }

    // What is printed behind the line.
    pub fn note(self) -> &'static str {
        match self {
            Verdict::Named(BusName::Unique) => " (unique)",
            Verdict::Named(BusName::WellKnown) => " (well-known)",
            Verdict::No | Verdict::Yes => "",
        }
    }
}

// Are the bytes one of this kind?
pub fn judge(kind: Kind, bytes: &[u8]) -> Verdict
    ensures { Right kind bytes.now result }
{
    match kind {
        Kind::Signature if is_signature(bytes) => Verdict::Yes,
        Kind::Path if is_path(bytes) => Verdict::Yes,
        Kind::Member if is_member(bytes) => Verdict::Yes,
        Kind::Interface | Kind::Error if is_interface(bytes) => Verdict::Yes,
        Kind::BusName => bus_name(bytes).map_or(Verdict::No, Verdict::Named),
        Kind::Text if is_text(bytes) => Verdict::Yes,
        _ => Verdict::No,
    }
}
