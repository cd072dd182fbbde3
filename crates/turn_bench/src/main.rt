//! The program `turn_bench`: it times the turn lock beside std's `Mutex`. `CALLERS TURNS ROUNDS`
//! starts so many callers, each in a thread of its own, and lets each of them take so many turns,
//! once under the turn lock and once under the mutex, in so many rounds. It prints a line for each;
//! with the word `quiet` it prints no times. A turn adds one entry to a list of which only the
//! number is kept, so that the time is that of the lock. It is proved safe, and promises nothing on
//! time.
#![tactic(auto)]

mod command;
mod mutex;
mod report;
mod tally;
mod turns;

use anyhow::{Result, bail};
use command::Command;
use mutex::time_mutex;
use report::report;
use std::env;
use turns::time_turns;

fn main(rt: HostRuntime) -> Result<()> {
    let words: Vec<String> = env::args(&rt)?.skip(1).collect(rt.alloc())?;
    let Some(command) = Command::of(&words) else {
        bail!("usage: turn_bench CALLERS TURNS ROUNDS [quiet]")
    };
    for _ in 0..command.rounds {
        report(
            &rt,
            "turn",
            &command,
            time_turns(&rt, rt.alloc(), &command)?,
        )?;
        report(
            &rt,
            "mutex",
            &command,
            time_mutex(&rt, rt.alloc(), &command)?,
        )?;
    }
    Ok(())
}
