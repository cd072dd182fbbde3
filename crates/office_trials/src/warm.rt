//! The vectors that the searches for the sessions' next forms may begin with.

use crate::files::{SERVED, STARTED};
use crate::outcome::{Call, FAILED, FIRST, FOUND, Reply, Step, Trial, WORKED, calm, run};
use crate::rows::expect_opens;
use exam_office::Refusal;
use std::alloc::Global;
use std::process::Abort;

const COLD: Step = (Call::Warm(0), Reply::Cold);

/// The vector of session 0 has one pair.
const ONE_PAIR: Step = (Call::Warm(0), Reply::Vector(1, Some((3, 1))));

/// There is no second session.
const NO_SECOND: Step = (Call::Warm(1), Reply::Refused(Refusal::NoSession(1)));

/// An item is served in session 0.
const SERVES: Step = (Call::Serve(0), Reply::At(FIRST));

/// The same where a call of the disk fails.
const FAILS: Step = (Call::Serve(0), FAILED);

/// What is in doubt is resolved.
const SETTLES: Step = (Call::Begin(70), FOUND);

/// The tree's one vector has side 3 with multiplier 1.
#[test]
fn the_vector_of_a_journal(rt: HostRuntime) {
    expect_opens(&rt, rt.alloc(), SERVED, &[ONE_PAIR, NO_SECOND], 2);
    expect_opens(&rt, rt.alloc(), STARTED, &[COLD, NO_SECOND], 1);
}

/// What the calls give before an item is served, and where serving it fails.
const COLD_FIRST: &[Step] = &[COLD, NO_SECOND];

const COLD_STILL: &[Step] = &[COLD, NO_SECOND, FAILS, COLD, NO_SECOND, SETTLES];

/// The vector of session 0 after its first item was served. The assembler
/// decides which vector this is.
fn vector_then<R: Abort>(rt: &R, alloc: Global) -> Reply {
    run(rt, alloc, &calm(STARTED, &[&[SERVES]])).found.vector
}

/// Over the journal of the started session, where these calls of the disk fail, each call gives its
/// reply.
fn expect_replies<R: Abort>(rt: &R, alloc: Global, fails: &[u64], steps: &[&[Step]]) {
    let trial = Trial {
        numbers: WORKED,
        file: STARTED,
        fails,
        steps,
    };
    run(rt, alloc, &trial);
}

/// Opening is fifteen calls of the disk, 0 to 14. If call 15 fails, the record is dropped. If call
/// 18 fails, it is kept.
#[test]
fn the_vector_of_a_record_in_doubt(rt: HostRuntime) {
    let alloc = rt.alloc();
    let vector = vector_then(&rt, alloc);
    assert!(rt; vector != Reply::Cold);
    let then = [(Call::Warm(0), vector), NO_SECOND];
    expect_replies(
        &rt,
        alloc,
        &[],
        &[COLD_FIRST, &[SERVES], &then, &[SETTLES], &then],
    );
    expect_replies(&rt, alloc, &[15], &[COLD_STILL, COLD_FIRST]);
    expect_replies(&rt, alloc, &[18], &[COLD_STILL, &then]);
}
