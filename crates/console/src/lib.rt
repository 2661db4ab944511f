// A program that reads standard input and takes no argument: what it is asked for, and how it ends.
#![tactic(auto)]

ghost use Rattle.std.specs.Prelude.{◌≡◌, ◌++◌, ◌⊎◌, [], Some, codes, slice_get, is_ok, eqb, if◌then◌else◌, Decides};
ghost use Rattle.std.specs.Process.{exit_status};
ghost use Rattle.console.specs.Requests.{Asks};

use std::error::Error;
use std::fmt;
use std::process::ExitCode;

// A program.
#[derive(Clone, Copy, Debug)]
pub struct Program {
    pub name: &'static str,
    // what it prints where it is asked for help
    pub help: &'static str,
    // what comes on standard input
    pub input: &'static str,
}

// What a program is asked for.
#[derive(Clone, Copy, PartialEq, Eq, Debug)]
pub enum Request {
    Help,
    Work,
}

// An argument that the program does not take.
#[derive(Clone, Copy, Debug)]
pub struct Misuse(pub Program);

impl fmt::Display for Misuse {
    ghost output = { λ m. Some (m.0.name.now ++ (codes " takes no argument but --help; the " ++ (m.0.input.now ++ codes " on standard input"))) };

    fn fmt<W: fmt::Write>(&self, f: &mut fmt::Formatter<W>) -> fmt::Result {
        let Program { name, input, .. } = self.0;
        write!(
            f,
            "{name} takes no argument but --help; the {input} on standard input"
        )
    }
}

impl Error for Misuse {}

impl Program {
    // What the program is asked for by its first argument.
    pub fn request(self, argument: Option<&str>) -> Result<Request, Misuse>
        ensures { Asks self argument.entry result }
    {
        match argument {
            None => Ok(Request::Work),
            Some("--help") => Ok(Request::Help),
            Some(_) => Err(Misuse(self)),
        }
    }

    // Tells an error on standard error, and answers how the program ends.
    pub fn end(self, rt: &impl Eprint, outcome: anyhow::Result<()>) -> ExitCode
        ensures { exit_status result ≡ (if is_ok outcome then 0 else 1) }
    {
        match outcome {
            Ok(()) => ExitCode::SUCCESS,
            Err(error) => {
                // where standard error fails too, the status alone tells
                let _told = eprintln!(rt; "{}: {error:#}", self.name);
                ExitCode::FAILURE
            }
        }
    }
}

// Whether a line of input is passed over: it is empty, or a comment.
pub fn is_passed_over(line: &str) -> bool
    ensures { Decides result ((line.now ≡ []) ⊎ (slice_get line.now 0 ≡ Some 35)) }
{
    line.is_empty() || line.starts_with('#')
}

// What a word for so many things ends in.
pub fn plural(n: u64) -> &'static str
    ensures { result.now ≡ (if eqb n 1 then [] else codes "s") }
{
    if n == 1 { "" } else { "s" }
}
