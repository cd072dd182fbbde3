//! Passes of one lock in threads.

ghost use Rattle.std.specs.Prelude.{◌≡◌, ◌+◌, ◌<◌, [], IfSome, All};
ghost use Rattle.turn_lock.specs.Passes.{new_pass};
ghost use Rattle.serve_trials.specs.Own.{AppendsOwn, HasBoth, HasRun, IsReady};

use crate::numbers::{Append, Numbers};
use std::alloc::Global;
use std::sync::Wait;
use std::thread;
use std::thread::Threads;
use turn_lock::{Pass, Turn};

// Takes one turn, and answers whether it appended the pass's number.
fn append_one<R: Wait>(rt: &R, turn: &Turn<Numbers>, pass: &mut Pass<Numbers>) -> bool
    requires ready { IsReady turn.now pass.old }
    ensures { AppendsOwn turn.now 1 pass.old pass.new result }
{
    let number = pass.number();
    turn.turn(rt, pass, &mut Append { number })
}

/// Takes turns, and answers whether each of them appended the pass's number. At the places of its
/// own entries the list then has that number.
pub fn append_all<R: Wait>(
    rt: &R,
    turn: &Turn<Numbers>,
    pass: &mut Pass<Numbers>,
    count: u32,
) -> bool
    requires ready { IsReady turn.now pass.old }
    ensures { AppendsOwn turn.now count pass.old pass.new result }
{
    let mut all = true;
    for taken in 0..count {
        all = append_one(rt, turn, pass) && all;
    }
    all
}

// A new pass takes 1,000 turns.
fn run<R: Wait>(rt: &R, turn: &Turn<Numbers>, pass: Pass<Numbers>) -> (Pass<Numbers>, bool)
    requires of { pass.turn ≡ turn.now }
    requires new { pass.mine ≡ [] }
    ensures { HasRun turn.now pass.number 1000 result.0 result.1 }
{
    let mut pass = pass;
    let all = append_all(rt, turn, &mut pass, 1000);
    (pass, all)
}

fn lock_of(alloc: Global) -> Option<(Turn<Numbers>, Pass<Numbers>)>
    ensures { IfSome result (λ r. r.1 ≡ new_pass r.0 0 0 []) }
{
    let items = Vec::new(alloc);
    Turn::new(alloc, Numbers { items }).ok()
}

/// Two passes in two threads, 1,000 turns each. Gives the list at the end; `None` out of memory.
pub fn two_threads<R: Threads + Wait + Sync>(rt: &R, alloc: Global) -> Option<Vec<u32>>
    ensures { IfSome result (λ items. HasBoth 1000 items.items) }
{
    let (turn, mut first) = lock_of(alloc)?;
    let second = turn.split(&mut first);
    let (a, b) = thread::join(
        rt,
        || -> (Pass<Numbers>, bool)
            requires { (first.turn ≡ turn) × (first.mine ≡ []) }
            ensures { HasRun turn first.number 1000 result.0 result.1 }
        { run(rt, &turn, first) },
        || -> (Pass<Numbers>, bool)
            requires { (second.turn ≡ turn) × (second.mine ≡ []) }
            ensures { HasRun turn second.number 1000 result.0 result.1 }
        { run(rt, &turn, second) },
    );
    let (mut first, one) = a;
    let (second, two) = b;
    turn.join(&mut first, second);
    let Numbers { items } = turn.close(rt, first);
    if one && two { Some(items) } else { None }
}

// A pass with what came of its turns.
#[derive(Drop)]
struct Caller {
    pass: Pass<Numbers>,
    all: bool,
}

// So many passes, split from the first one.
fn split_all(
    alloc: Global,
    turn: &Turn<Numbers>,
    first: &mut Pass<Numbers>,
    count: u32,
) -> Option<Vec<Caller>>
    requires of { first.old.turn ≡ turn.now }
    requires first { (first.old.number ≡ 0) × (first.old.splits + count < 65536) }
    ensures of { first.new.turn ≡ turn.now }
    ensures callers { IfSome result (λ callers. All (λ c. IsReady turn.now c.pass) callers.items) }
{
    let mut callers = Vec::new(alloc);
    for _ in 0..count {
        let pass = turn.split(first);
        callers.push(Caller { pass, all: true }).ok()?;
    }
    Some(callers)
}

// Joins the passes into the first one, and answers whether all their turns appended.
fn join_all(turn: &Turn<Numbers>, first: &mut Pass<Numbers>, callers: Vec<Caller>) -> bool
    requires of { first.old.turn ≡ turn.now }
    requires callers { All (λ c. c.pass.turn ≡ turn.now) callers.items }
    ensures of { first.new.turn ≡ turn.now }
{
    let mut all = true;
    for caller in callers {
        all = all && caller.all;
        turn.join(first, caller.pass);
    }
    all
}

// The passes take so many turns each, in threads of their own.
fn run_all<R: Threads + Wait + Sync>(
    rt: &R,
    turn: &Turn<Numbers>,
    callers: &mut [Caller],
    turns: u32,
)
    requires { All (λ c. IsReady turn.now c.pass) callers.old }
    ensures { All (λ c. c.pass.turn ≡ turn.now) callers.new }
{
    let count = callers.len();
    if count == 0 {
        return;
    }
    thread::for_each_mut(
        rt,
        callers,
        count,
        &|_: usize, caller: &mut Caller|
            requires { IsReady turn.now caller.now.pass }
            ensures { caller.exit.now.pass.turn ≡ turn.entry.now }
        { caller.all = append_all(rt, turn, &mut caller.pass, turns) },
    );
}

/// So many passes in as many threads, each with so many turns. Gives the list at the end; `None`
/// out of memory.
pub fn many_threads<R: Threads + Wait + Sync>(
    rt: &R,
    alloc: Global,
    threads: u32,
    turns: u32,
) -> Option<Vec<u32>>
    requires { threads < 65536 }
{
    let (turn, mut first) = lock_of(alloc)?;
    let Some(mut callers) = split_all(alloc, &turn, &mut first, threads) else {
        let _ = turn.close(rt, first);
        return None;
    };
    run_all(rt, &turn, &mut callers, turns);
    let all = join_all(&turn, &mut first, callers);
    let Numbers { items } = turn.close(rt, first);
    if all { Some(items) } else { None }
}
