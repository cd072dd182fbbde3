//! How an examination is, by a look that resolves the entry in doubt first.

use crate::files::{ANSWERED, CLOSED, Parts, SERVED};
use crate::outcome::{Call, FAILED, Reply, Step, Trial, WORKED};
use crate::rows::{ONE_ANSWERED, ONE_SERVED, Row, expect_row};
use exam_office::{Health, Place, Summary};
use std::alloc::Global;
use std::process::Abort;

/// The first item of session 0 was served. The worked plan has room for 1,000 sessions and
/// 67,108,864 bytes.
const SERVED_FOUND: Step = (
    Call::Probe,
    Reply::Found(Health {
        entries: 2,
        sessions: 1,
        open: 1,
        sessions_left: 999,
        length: 184,
        room: 67_108_680,
    }),
);

/// The same after the item was answered.
const ANSWERED_FOUND: Step = (
    Call::Probe,
    Reply::Found(Health {
        entries: 3,
        sessions: 1,
        open: 1,
        sessions_left: 999,
        length: 197,
        room: 67_108_667,
    }),
);

/// The served session was closed: no session is open.
const CLOSED_FOUND: Step = (
    Call::Probe,
    Reply::Found(Health {
        entries: 3,
        sessions: 1,
        open: 0,
        sessions_left: 999,
        length: 194,
        room: 67_108_670,
    }),
);

/// A call of the disk fails in a look.
const NOT_FOUND: Step = (Call::Probe, FAILED);

/// The answer is given, and a call of the disk fails in it.
const FAILS: Step = (Call::Answer(0, 0, 1), FAILED);

const CLOSES: Step = (Call::Close(0), Reply::At(Place::Closed));

/// The summary after the served session was closed.
const ONE_CLOSED: Summary = Summary {
    entries: 3,
    sessions: 1,
    finished: 1,
    proved: 1,
    unproved: 0,
    aside: 0,
    nodes: 1,
};

/// A file, calls of the disk that fail, and calls of the office over it; and what they end with:
/// the summary of the history, how many calls of the disk were made, how many of them failed, and
/// the file.
type Looking = (
    Parts<'static>,
    &'static [u64],
    &'static [Step],
    Summary,
    (u64, u64),
    Parts<'static>,
);

/// With nothing in doubt a look makes no call of the disk. Opening the served session is eighteen
/// calls, and an answer is calls 18 to 21. If call 19 fails, the next call of the office drops the
/// entry by five calls; if call 21 fails, it keeps the entry by three.
const LOOKING: [Looking; 7] = [
    (SERVED, &[], &[SERVED_FOUND], ONE_SERVED, (18, 0), SERVED),
    (
        SERVED,
        &[],
        &[CLOSES, CLOSED_FOUND],
        ONE_CLOSED,
        (22, 0),
        CLOSED,
    ),
    // The fault went away: the entry is dropped, or kept, as the disk has it.
    (
        SERVED,
        &[19],
        &[FAILS, SERVED_FOUND],
        ONE_SERVED,
        (25, 1),
        SERVED,
    ),
    (
        SERVED,
        &[21],
        &[FAILS, ANSWERED_FOUND, ANSWERED_FOUND],
        ONE_ANSWERED,
        (25, 1),
        ANSWERED,
    ),
    // It stays for a while: each look is refused, and the entry stays in doubt.
    (
        SERVED,
        &[19, 20],
        &[FAILS, NOT_FOUND, SERVED_FOUND],
        ONE_SERVED,
        (26, 2),
        SERVED,
    ),
    (
        SERVED,
        &[21, 22, 23],
        &[FAILS, NOT_FOUND, NOT_FOUND, ANSWERED_FOUND],
        ONE_ANSWERED,
        (27, 3),
        ANSWERED,
    ),
    // It stays: the entry is on the disk all the same.
    (
        SERVED,
        &[21, 22],
        &[FAILS, NOT_FOUND],
        ONE_SERVED,
        (23, 2),
        ANSWERED,
    ),
];

/// The calls end with what their row has.
fn expect_end_of_calls<R: Abort>(
    rt: &R,
    alloc: Global,
    (file, fails, steps, summary, (calls, faults), left): &Looking,
) {
    let row = Row {
        trial: Trial {
            numbers: WORKED,
            file,
            fails,
            steps: &[steps],
        },
        summary: *summary,
        calls: *calls,
        faults: *faults,
        left,
    };
    expect_row(rt, alloc, &row);
}

#[test]
fn looks_at_the_health(rt: HostRuntime) {
    for row in &LOOKING {
        expect_end_of_calls(&rt, rt.alloc(), row);
    }
}
