//! What a round prints.

use crate::command::Command;
use std::io;
use std::time::Duration;

/// What came of one round of a lock.
#[derive(Clone, Copy)]
pub struct Round {
    /// How many entries there are at the end.
    pub counted: u64,
    /// What the callers took together, from the start of the first to the end of the last.
    pub took: Duration,
}

/// Prints a line for a round and, unless quiet, what it took.
pub fn report<R: Print>(rt: &R, lock: &str, command: &Command, round: Round) -> io::Result<()> {
    let callers = command.callers;
    let turns = command.turns;
    let counted = round.counted;
    if command.quiet {
        return println!(rt; "{lock} callers {callers} turns {turns} counted {counted}");
    }
    let took = round.took.as_nanos();
    println!(rt; "{lock} callers {callers} turns {turns} counted {counted} nanoseconds {took}")
}
