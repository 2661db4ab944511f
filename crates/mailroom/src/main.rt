// Carries out a script on a shelf and on a roll, and says whether they answer alike.
#![tactic(auto)]

mod script;

use anyhow::{Context, anyhow};
use connection::CONNECTIONS;
use console::{Program, Request};
use hex_digits::pair;
use mailbox::MailboxSet;
use roll::Roll;
use script::{Line, Wrong, read};
use shelf::Shelf;
use std::alloc::{AllocError, Global};
use std::io::{BufRead, BufReader};
use std::process::ExitCode;
use std::{env, fmt};
use steps::{Answers, Outcome, Step, compare};

const HELP: &str = "usage: mailroom < SCRIPT

Carries out a script on a shelf and on a roll of the same limit, and prints what came.
It fails if the two ever answer differently, or a line is no step.

  --help    print this text
";

const PROGRAM: Program = Program {
    name: "mailroom",
    help: HELP,
    input: "script comes",
};

const DIFFERS: &str = ", but the roll differs";

// The bytes of area for each message that may wait, in either kind, as the sets' limits are told; not their own constants,
// so that a wrong one shows.
const SHELF_PLACE: usize = 16_384;

const ROLL_PLACE: usize = 16_432;

// Two sets of the same limit.
#[derive(Drop)]
struct Room {
    shelf: Shelf,
    roll: Roll,
}

// How many steps were carried out, and how many were answered differently.
#[derive(Clone, Copy, Default)]
struct Score {
    steps: u64,
    differing: u64,
}

impl Score {
    fn add(&mut self, same: bool) {
        self.steps = self.steps.saturating_add(1);
        if !same {
            self.differing = self.differing.saturating_add(1);
        }
    }
}

fn made(heap: Global, limit: usize) -> Result<Room, AllocError> {
    let shelf = Shelf::over(vec![in heap; 0u8; limit.saturating_mul(SHELF_PLACE)]?);
    let roll = Roll::over(vec![in heap; 0u8; limit.saturating_mul(ROLL_PLACE)]?);
    Ok(Room { shelf, roll })
}

// Bytes as `Hex` shows them. A text of their digits is made first, since `Hex` takes half as long again, a character at a time.
fn in_hex(heap: Global, bytes: &[u8]) -> Result<String, AllocError> {
    let mut text = String::new(heap);
    if bytes.is_empty() {
        text.push('-')?;
    }
    for b in bytes {
        let [high, low] = pair(*b);
        text.push(char::from(high))?;
        text.push(char::from(low))?;
    }
    Ok(text)
}

// What came of a step that is not `limit`, with the bytes that were taken, in hex.
#[derive(Clone, Copy)]
struct Told<'a> {
    line: &'a Line,
    outcome: Outcome,
    taken: &'a str,
}

impl fmt::Display for Told<'_> {
    fn fmt<W: fmt::Write>(&self, f: &mut fmt::Formatter<W>) -> fmt::Result {
        match (self.line, self.outcome) {
            (Line::Put(c, _), Outcome::Put(Ok(()))) => write!(f, "put {c}: ok"),
            (Line::Put(c, _), Outcome::Put(Err(refusal))) => write!(f, "put {c}: {refusal}"),
            (Line::Take(c, _), Outcome::Taken(Ok(n))) => {
                write!(f, "take {c}: {n} {}", self.taken)
            }
            (Line::Take(c, _), Outcome::Taken(Err(refusal))) => write!(f, "take {c}: {refusal}"),
            (Line::Count(c), Outcome::Counted(n)) => write!(f, "count {c}: {n}"),
            (Line::Clear(c), _) => write!(f, "clear {c}"),
            _ => f.write_str("?"),
        }
    }
}

// The bytes that a take wrote.
fn written(outcome: Outcome, buffer: &[u8]) -> &[u8] {
    match outcome {
        Outcome::Taken(Ok(n)) if n <= buffer.len() => &buffer[0..n],
        _ => &buffer[0..0],
    }
}

// Carries out a step that is not `limit` on both sets, and prints what came.
fn carry_out(rt: &HostRuntime, room: &mut Room, line: &Line) -> anyhow::Result<bool> {
    let heap = rt.alloc();
    let (step, size) = match line {
        Line::Put(c, message) => (Step::Put(*c, message.as_slice()), 0),
        Line::Take(c, size) => (Step::Take(*c), usize::from(*size)),
        Line::Clear(c) => (Step::Clear(*c), 0),
        Line::Count(c) => (Step::Count(*c), 0),
        Line::Limit(_) => return Ok(true),
    };
    let mut out = vec![in heap; 0u8; size]?;
    let mut other = vec![in heap; 0u8; size]?;
    let Answers { first, second } = compare(
        &mut room.shelf,
        &mut room.roll,
        step,
        out.as_mut_slice(),
        other.as_mut_slice(),
    );
    let same = first == second && out == other;
    let hex = in_hex(heap, written(first, out.as_slice()))?;
    let told = Told {
        line,
        outcome: first,
        taken: hex.as_str(),
    };
    println!(rt; "{told}{}", if same { "" } else { DIFFERS })?;
    Ok(same)
}

// A `limit` step: both sets anew.
fn renew(rt: &HostRuntime, limit: usize, score: &mut Score) -> anyhow::Result<Room> {
    let room = made(rt.alloc(), limit)?;
    let bound = room.shelf.limit();
    let same = bound == room.roll.limit();
    println!(rt; "limit {bound}{}", if same { "" } else { DIFFERS })?;
    score.add(same);
    Ok(room)
}

fn print_waiting(rt: &HostRuntime, room: &Room) -> anyhow::Result<()> {
    for c in (0u8..).take(CONNECTIONS) {
        let n = room.shelf.count(c);
        if n > 0 {
            println!(rt; "waiting for {c}: {n}")?;
        }
    }
    Ok(())
}

// One line of the script, on the room that the last `limit` made.
fn play(
    rt: &HostRuntime,
    room: Option<Room>,
    line: &Line,
    score: &mut Score,
) -> anyhow::Result<Option<Room>> {
    match (line, room) {
        (Line::Limit(limit), _) => Ok(Some(renew(rt, *limit, score)?)),
        (_, Some(mut room)) => {
            let same = carry_out(rt, &mut room, line)?;
            score.add(same);
            Ok(Some(room))
        }
        (_, None) => Ok(None),
    }
}

// A line without its comment and the spaces at its end.
fn content(line: &str) -> &str {
    line.split_once('#')
        .map_or(line, |(before, _)| before)
        .trim_end()
}

// Carries out standard input. A line that stops it is named by its number.
fn play_input(rt: &HostRuntime) -> anyhow::Result<Score> {
    let heap = rt.alloc();
    let mut score = Score::default();
    let mut room: Option<Room> = None;
    for (number, row) in (1u64..).zip(BufReader::new(heap, rt.stdin())?.lines(heap)) {
        let row = row?;
        let text = content(row.as_str());
        if text.is_empty() {
            continue;
        }
        let line = read(heap, text).context(format_args!("line {number}"))?;
        let played = play(rt, room.take(), &line, &mut score)?;
        room = Some(
            played
                .ok_or(Wrong::NoLimit)
                .context(format_args!("line {number}"))?,
        );
    }
    if let Some(room) = &room {
        print_waiting(rt, room)?;
    }
    Ok(score)
}

fn work(rt: &HostRuntime) -> anyhow::Result<()> {
    let Score { steps, differing } = play_input(rt)?;
    if differing > 0 {
        println!(rt; "{steps} steps, {differing} of them answered differently")?;
        return Err(anyhow!("the shelf and the roll differ"));
    }
    println!(rt; "{steps} steps, the shelf and the roll gave the same answers at every step")?;
    Ok(())
}

// Each program says this for itself: a shared function that is given the work as a closure would need a `requires`, and a
// trait for it would be longer than these lines.
fn run(rt: &HostRuntime) -> anyhow::Result<()> {
    match PROGRAM.request(env::args(rt)?.nth(1).as_deref())? {
        Request::Help => rt.print(PROGRAM.help)?,
        Request::Work => work(rt)?,
    }
    Ok(())
}

fn main(rt: HostRuntime) -> ExitCode {
    PROGRAM.end(&rt, run(&rt))
}
