//! Callers of a mutex.

use crate::command::Command;
use crate::report::Round;
use crate::tally::Tally;
use anyhow::Result;
use std::alloc::Global;
use std::rt::Clock;
use std::sync::{Mutex, Wait};
use std::thread;
use std::thread::Threads;
use std::time::Instant;

// Locks so often, and adds an entry each time.
fn add_all<R: Wait>(rt: &R, lock: &Mutex<Tally>, number: u32, count: u32) {
    for _ in 0..count {
        lock.lock(rt).add(number);
    }
}

// Each caller locks so often, in a thread of its own.
fn run_all<R: Threads + Wait + Sync>(rt: &R, lock: &Mutex<Tally>, callers: &mut [u32], count: u32) {
    let threads = callers.len();
    if threads == 0 {
        return;
    }
    thread::for_each_mut(
        rt,
        callers,
        threads,
        &|_: usize, caller: &mut u32| { add_all(rt, lock, *caller, count) },
    );
}

/// Times callers of one mutex. `Err` if there is no memory, or no clock.
pub fn time_mutex<R: Threads + Wait + Sync + Clock>(
    rt: &R,
    alloc: Global,
    command: &Command,
) -> Result<Round> {
    let lock = Mutex::new(Tally::new());
    let mut callers = Vec::new(alloc);
    for number in 0..command.callers {
        callers.push(number as u32 + 1)?;
    }
    let start = Instant::now(rt)?;
    run_all(rt, &lock, &mut callers, command.turns);
    let took = start.elapsed(rt)?;
    Ok(Round {
        counted: lock.into_inner().entries.count(),
        took,
    })
}
