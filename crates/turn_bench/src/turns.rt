//! Callers of a turn lock.
ghost use Rattle.std.specs.Prelude.{◌≡◌, ◌+◌, ◌<◌, All, IfSome};

use crate::command::Command;
use crate::report::Round;
use crate::tally::{Add, Tally};
use anyhow::{Result, bail};
use std::alloc::Global;
use std::rt::Clock;
use std::sync::Wait;
use std::thread;
use std::thread::Threads;
use std::time::Instant;
use turn_lock::{Pass, Turn};

// So many passes, split from the first one.
fn split_all(
    alloc: Global,
    turn: &Turn<Tally>,
    first: &mut Pass<Tally>,
    count: u16,
) -> Option<Vec<Pass<Tally>>>
    requires of { first.old.turn ≡ turn.now }
    requires first { (first.old.number ≡ 0) × (first.old.splits + count < 65536) }
    ensures of { first.new.turn ≡ turn.now }
    ensures passes { IfSome result (λ passes. All (λ p. p.turn ≡ turn.now) passes.items) }
{
    let mut passes = Vec::new(alloc);
    for _ in 0..count {
        passes.push(turn.split(first)).ok()?;
    }
    Some(passes)
}

// Takes so many turns.
fn take_turns<R: Wait>(rt: &R, turn: &Turn<Tally>, pass: &mut Pass<Tally>, count: u32)
    requires of { pass.old.turn ≡ turn.now }
    ensures of { pass.new.turn ≡ turn.now }
{
    let number = pass.number();
    for _ in 0..count {
        turn.turn(rt, pass, &mut Add { number });
    }
}

// Each pass takes so many turns, in a thread of its own.
fn run_all<R: Threads + Wait + Sync>(
    rt: &R,
    turn: &Turn<Tally>,
    passes: &mut [Pass<Tally>],
    count: u32,
)
    requires { All (λ p. p.turn ≡ turn.now) passes.old }
    ensures { All (λ p. p.turn ≡ turn.now) passes.new }
{
    let threads = passes.len();
    if threads == 0 {
        return;
    }
    thread::for_each_mut(
        rt,
        passes,
        threads,
        &|_: usize, pass: &mut Pass<Tally>|
            requires { pass.now.turn ≡ turn.now }
            ensures { pass.exit.now.turn ≡ turn.entry.now }
        { take_turns(rt, turn, pass, count) },
    );
}

/// Times callers of one turn lock. `Err` if there is no memory, or no clock.
pub fn time_turns<R: Threads + Wait + Sync + Clock>(
    rt: &R,
    alloc: Global,
    command: &Command,
) -> Result<Round> {
    let Ok((turn, mut first)) = Turn::new(alloc, Tally::new()) else {
        bail!("no memory for a turn lock")
    };
    let Some(mut passes) = split_all(alloc, &turn, &mut first, command.callers) else {
        let _ = turn.close(rt, first);
        bail!("no memory for the passes")
    };
    let start = Instant::now(rt);
    run_all(rt, &turn, &mut passes, command.turns);
    let end = Instant::now(rt);
    let counted = turn.close(rt, first).entries.count();
    Ok(Round {
        counted,
        took: end?.duration_since(start?),
    })
}
