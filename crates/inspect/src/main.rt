// Says of messages in hex what they hold, or what is wrong with them.
#![tactic(auto)]

mod content;
mod failure;
mod reader;
mod report;
mod value;
mod words;

use anyhow::Context;
use console::{Program, Request, is_passed_over, plural};
use report::report_on;
use std::env;
use std::io::{BufRead, BufReader};
use std::process::ExitCode;
use words::InWords;

const HELP: &str = "usage: inspect < MESSAGES

Says of each message, a line of lower-case hex digits, what it holds or what is wrong with it.
A line that is empty or begins with # is passed over.

  --help    print this text
";

const PROGRAM: Program = Program {
    name: "inspect",
    help: HELP,
    input: "messages come",
};

// How many messages were valid and faulty. The names are what is printed.
#[derive(Clone, Copy, Default)]
struct Score {
    valid: u64,
    faulty: u64,
}

impl Score {
    fn messages(self) -> u64 {
        self.valid.saturating_add(self.faulty)
    }
}

// Reports on the messages of standard input. A line that stops it is named by its number.
fn inspect_input(rt: &HostRuntime) -> anyhow::Result<Score> {
    let heap = rt.alloc();
    let mut score = Score::default();
    for (number, row) in (1u64..).zip(BufReader::new(heap, rt.stdin())?.lines(heap)) {
        let row = row.context(format_args!("line {number}"))?;
        if is_passed_over(row.as_str()) {
            continue;
        }
        match report_on(heap, row.as_str()).context(format_args!("line {number}"))? {
            Ok(content) => {
                score.valid = score.valid.saturating_add(1);
                println!(rt; "line {number}: {content}")?;
            }
            Err(fault) => {
                score.faulty = score.faulty.saturating_add(1);
                println!(rt; "line {number}: {}", InWords(fault))?;
            }
        }
    }
    Ok(score)
}

// What it tells at the end is told in its own words.
fn work(rt: &HostRuntime) -> anyhow::Result<()> {
    let score = inspect_input(rt)?;
    let messages = score.messages();
    println!(rt;
        "{messages} message{}: {} valid, {} faulty",
        plural(messages),
        score.valid,
        score.faulty
    )?;
    Ok(())
}

// Each program says this for itself: a shared function that is given the work as a closure would need a `requires`, and a
// trait for it would be longer than these lines.
fn run(rt: &HostRuntime) -> anyhow::Result<()> {
    match PROGRAM.request(env::args(rt)?.nth(1).as_deref())? {
        Request::Help => rt.print(PROGRAM.help)?,
        Request::Work => work(rt)?,
    }
    Ok(())
}

fn main(rt: HostRuntime) -> ExitCode {
    PROGRAM.end(&rt, run(&rt))
}
