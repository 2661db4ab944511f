// How a line is read.
ghost use Rattle.std.specs.Prelude.{◌≡◌, ◌==◌, position};
ghost use Rattle.std.specs.Option.{option_map};
ghost use Rattle.handshake.specs.Lines.{printable, word, text as remainder, read, authority, meant};

// The longest line that is read; a longer one is unknown.
const LONGEST: usize = 256;

// A line that a program said, with its text as part of the line.
#[derive(Clone, Copy)]
pub enum Line<'a> {
    // AUTH EXTERNAL and a text
    External(&'a [u8]),
    // AUTH in any other way
    Auth,
    // ERROR, with a text or without
    Error,
    Begin,
    Cancel,
    Unknown,
}

// Whether every byte is printable ASCII.
fn is_printable(line: &[u8]) -> bool
    ensures { result ≡ printable line.now }
{
    line.iter().all(|b| matches!(b, b' '..=b'~'))
}

// Where the first space is; a function of its own, since what `position` says is lost in the arms of a match.
fn first_space(line: &[u8]) -> Option<usize>
    ensures { result ≡ position (λ b. b == 32) line.now }
{
    line.iter().position(|b| *b == b' ')
}

// The word before the first space, and the text after it if there is a space.
fn parted(line: &[u8]) -> (&[u8], Option<&[u8]>)
    ensures front { result.0.now ≡ word line.now }
    ensures back { option_map (λ x. x.now) result.1 ≡ remainder line.now }
{
    match first_space(line) {
        Some(i) => (&line[..i], Some(&line[i + 1..])),
        None => (line, None),
    }
}

// AUTH, by what follows it.
fn auth(text: Option<&[u8]>) -> Line<'_>
    ensures { meant result ≡ authority (option_map (λ x. x.now) text.entry) }
{
    match text.map(parted) {
        Some((b"EXTERNAL", Some(response))) => Line::External(response),
        _ => Line::Auth,
    }
}

// What a line says.
pub fn parse(line: &[u8]) -> Line<'_>
    ensures { meant result ≡ read line.now }
{
    if line.len() > LONGEST || !is_printable(line) {
        return Line::Unknown;
    }
    match parted(line) {
        (b"AUTH", text) => auth(text),
        (b"ERROR", _) => Line::Error,
        (b"BEGIN", None) => Line::Begin,
        (b"CANCEL", None) => Line::Cancel,
        _ => Line::Unknown,
    }
}
