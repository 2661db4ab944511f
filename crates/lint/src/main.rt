// Says of texts whether they are signatures, paths, names or texts, as asked.
#![tactic(auto)]

mod question;
mod verdict;

use anyhow::Context;
use console::{Program, Request, is_passed_over, plural};
use question::{Question, read};
use std::env;
use std::io::{BufRead, BufReader};
use std::process::ExitCode;
use verdict::{Verdict, judge};

const HELP: &str = "usage: lint < QUESTIONS

Says of each text, a line each, whether it is what it is said to be.
A line is one of

  signature TEXT   path TEXT   member TEXT   interface TEXT
  error TEXT       busname TEXT              text TEXT
  hex KIND HEX     the same of bytes in lower-case hex digits, - for none

  --help    print this text
";

const PROGRAM: Program = Program {
    name: "lint",
    help: HELP,
    input: "questions come",
};

// How many questions were answered by yes and by no. The names are what is printed.
#[derive(Clone, Copy, Default)]
struct Score {
    yes: u64,
    no: u64,
}

impl Score {
    fn add(&mut self, verdict: Verdict) {
        let count = if verdict.is_yes() {
            &mut self.yes
        } else {
            &mut self.no
        };
        *count = count.saturating_add(1);
    }

    fn questions(self) -> u64 {
        self.yes.saturating_add(self.no)
    }
}

// Answers what standard input asks. A line that stops it is named by its number.
fn answer_input(rt: &HostRuntime) -> anyhow::Result<Score> {
    let heap = rt.alloc();
    let mut score = Score::default();
    for (number, row) in (1u64..).zip(BufReader::new(heap, rt.stdin())?.lines(heap)) {
        let row = row.context(format_args!("line {number}"))?;
        let line = row.as_str();
        if is_passed_over(line) {
            continue;
        }
        let Question { kind, bytes } = read(heap, line).context(format_args!("line {number}"))?;
        let verdict = judge(kind, bytes.as_slice());
        score.add(verdict);
        println!(rt; "{:<3} {line}{}", verdict.word(), verdict.note())?;
    }
    Ok(score)
}

// What it tells at the end is told in its own words.
fn work(rt: &HostRuntime) -> anyhow::Result<()> {
    let score = answer_input(rt)?;
    let questions = score.questions();
    println!(rt;
        "{questions} question{}: {} yes, {} no",
        plural(questions),
        score.yes,
        score.no
    )?;
    Ok(())
}

// Each program says this for itself: a shared function that is given the work as a closure would need a `requires`, and a
// trait for it would be longer than these lines.
fn run(rt: &HostRuntime) -> anyhow::Result<()> {
    match PROGRAM.request(env::args(rt)?.nth(1).as_deref())? {
        Request::Help => rt.print(PROGRAM.help)?,
        Request::Work => work(rt)?,
    }
    Ok(())
}

fn main(rt: HostRuntime) -> ExitCode {
    PROGRAM.end(&rt, run(&rt))
}
