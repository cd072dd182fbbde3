//! The program `draw_bench`: it times the draw of the items that are eligible for a session.
//! `SESSIONS ROUNDS` draws those of 512 items in each of eight bands, for so many sessions, in so
//! many rounds. Each item has counts, and is drawn with the probability one half. It prints a line
//! for each round, with the number of items that were eligible, summed over sessions and bands;
//! with the word `quiet` it prints no times. It is proved safe, and promises nothing on time.
#![tactic(auto)]

mod command;
mod draws;

use anyhow::{Result, bail};
use command::Command;
use draws::{counters, eligible};
use exposure_counters::Counters;
use std::time::{Duration, Instant};
use std::{env, io};

/// How many items are eligible, summed over so many sessions and their bands.
fn eligible_in_all(counters: &Counters, sessions: u32) -> u64 {
    let mut total = 0u64;
    for session in 0..sessions {
        total = total.wrapping_add(u64::from(eligible(counters, session)));
    }
    total
}

/// Prints a line for a round and, unless quiet, what it took.
fn report<R: Print>(rt: &R, command: &Command, total: u64, took: Duration) -> io::Result<()> {
    let sessions = command.sessions;
    if command.quiet {
        return println!(rt; "draw items 512 bands 8 sessions {sessions} eligible {total}");
    }
    let took = took.as_nanos();
    println!(rt; "draw items 512 bands 8 sessions {sessions} eligible {total} nanoseconds {took}")
}

fn main(rt: HostRuntime) -> Result<()> {
    let words: Vec<String> = env::args(&rt)?.skip(1).collect(rt.alloc())?;
    let Some(command) = Command::of(&words) else {
        bail!("usage: draw_bench SESSIONS ROUNDS [quiet]")
    };
    let Ok(counters) = counters(rt.alloc()) else {
        bail!("no memory for the counts")
    };
    for _ in 0..command.rounds {
        let start = Instant::now(&rt)?;
        let total = eligible_in_all(&counters, command.sessions);
        let end = Instant::now(&rt)?;
        report(&rt, &command, total, end.duration_since(start))?;
    }
    Ok(())
}
