// Replays a recorded stream from standard input, and says what was accomplished.
#![tactic(auto)]

mod session;

use anyhow::{Context, anyhow};
use console::{Program, Request, plural};
use replay::tally::{Count, Tally};
use session::{Disagreement, Session};
use std::env;
use std::io::{BufRead, BufReader};
use std::process::ExitCode;

const HELP: &str = "usage: runner < STREAM

Replays a recorded stream: makes each call, compares each answer with the recorded one,
and says what was accomplished. It fails if an answer disagrees or the stream is malformed.

  --help    print this text
";

const PROGRAM: Program = Program {
    name: "runner",
    help: HELP,
    input: "stream comes",
};

fn print_count(rt: &HostRuntime, name: &str, count: Count) -> anyhow::Result<()> {
    let made = count.made;
    let refused = count.refused;
    println!(rt; "  {name:<6}{made:>6} made, {refused} refused")?;
    Ok(())
}

fn print_summary(rt: &HostRuntime, tally: Tally) -> anyhow::Result<()> {
    let buses = tally.buses;
    let calls = tally.calls();
    let several = if buses == 1 { "" } else { "es" };
    println!(rt;
        "recorded stream: {buses} bus{several}, {calls} call{}",
        plural(calls)
    )?;
    print_count(rt, "open", tally.opens)?;
    print_count(rt, "line", tally.lines)?;
    print_count(rt, "close", tally.closes)?;
    let finished = tally.finished;
    println!(rt; "{finished} handshake{} finished", plural(finished))?;
    let agreed = tally.agreed;
    println!(rt; "{agreed} of {calls} answers agree")?;
    Ok(())
}

// Replays standard input. A row that stops it is named by its line.
fn replay_input(rt: &HostRuntime) -> anyhow::Result<Tally> {
    let heap = rt.alloc();
    let mut session = Session::new();
    for (number, line) in (1u64..).zip(BufReader::new(heap, rt.stdin())?.lines(heap)) {
        let line = line?;
        // an error is large, so it is made only of a row that stops the replay
        match session.row(heap, line.as_bytes()) {
            Ok(None) => {}
            Ok(Some(Disagreement { expected, came })) => {
                println!(rt; "line {number}: expected '{expected}', came '{came}'")?;
            }
            Err(trouble) => return Err(trouble).context(format_args!("line {number}")),
        }
    }
    session.end().context("at the end")
}

fn work(rt: &HostRuntime) -> anyhow::Result<()> {
    let tally = replay_input(rt)?;
    print_summary(rt, tally)?;
    let wrong = tally.calls().saturating_sub(tally.agreed);
    if wrong > 0 {
        return Err(anyhow!(format!(in rt.alloc();
            "{wrong} answer{} not the recorded one",
            if wrong == 1 { " is" } else { "s are" }
        )?));
    }
    Ok(())
}

// Each program says this for itself: a shared function that is given the work as a closure would need a `requires`, and a
// trait for it would be longer than these lines.
fn run(rt: &HostRuntime) -> anyhow::Result<()> {
    match PROGRAM.request(env::args(rt)?.nth(1).as_deref())? {
        Request::Help => rt.print(PROGRAM.help)?,
        Request::Work => work(rt)?,
    }
    Ok(())
}

fn main(rt: HostRuntime) -> ExitCode {
    PROGRAM.end(&rt, run(&rt))
}

#[cfg(test)]
mod tests;
