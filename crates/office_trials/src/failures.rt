//! What an office does after a call of the disk has failed.

use crate::equal::expect_equal;
use crate::expected::{expect_calls, expect_parts};
use crate::files::{ANSWERED, BEST, END, HEADER, Parts, REST, SERVE, SERVED, START, TRAILED};
use crate::outcome::{Call, FAILED, Reply, Step, Trial, WORKED, run};
use crate::rows::{ONE_ANSWERED, ONE_SERVED, Row, expect_row};
use exam_office::{OpenFault, Place, Refusal, Summary};
use std::alloc::Global;
use std::process::Abort;

/// The answer is given, and a call of the disk fails in it.
const FAILS: Step = (Call::Answer(0, 0, 1), FAILED);

/// The answer is given, and is in the history then.
const ADDS: Step = (Call::Answer(0, 0, 1), Reply::At(Place::Pending(1)));

/// Another answer is given, and added; or refused, since the first is in the history.
const ADDS_OTHER: Step = (Call::Answer(0, 0, 0), Reply::At(Place::Pending(1)));

const REFUSED_OTHER: Step = (Call::Answer(0, 0, 0), Reply::Refused(Refusal::Other(1)));

/// The journal of the served session with the record of its answer, after a closed gate.
const STAGED: Parts<'static> = &[
    HEADER,
    START,
    REST,
    SERVE,
    REST,
    BEST,
    END,
    &[0, 0, 0, 8, 4, 0, 0, 0, 0, 0, 0, 1, 0],
];

/// The same journal with the record of the other answer.
const OTHER: Parts<'static> = &[
    HEADER,
    START,
    REST,
    SERVE,
    REST,
    BEST,
    &[1, 0, 0, 0, 8, 4, 0, 0, 0, 0, 0, 0, 0],
    END,
];

/// Calls of the disk that fail in answers over the journal of the served session; the answers, and
/// what they end with: the summary of the history, how many calls of the disk were made, how many
/// of them failed, and the file.
type Failing = (
    &'static [u64],
    &'static [Step],
    Summary,
    (u64, u64),
    Parts<'static>,
);

/// Opening is eighteen calls, and the first answer is calls 18 to 21: write, sync, open the gate,
/// sync. If call 19 fails, the record is on the disk after a closed gate, and the history does not
/// have it: the next call of the office drops it by five calls (read the gate, write it again,
/// sync, cut, sync). If call 21 fails, the gate is open: the next call of the office keeps the
/// record by three (read the gate, write it again, sync).
const FAILING: [Failing; 14] = [
    (&[19], &[FAILS], ONE_SERVED, (20, 1), STAGED),
    (&[19], &[FAILS, ADDS], ONE_ANSWERED, (29, 1), ANSWERED),
    (&[21], &[FAILS], ONE_SERVED, (22, 1), ANSWERED),
    (&[21], &[FAILS, ADDS], ONE_ANSWERED, (25, 1), ANSWERED),
    // A call of mending fails in the second answer.
    (
        &[19, 20],
        &[FAILS, FAILS, ADDS],
        ONE_ANSWERED,
        (30, 2),
        ANSWERED,
    ),
    (
        &[19, 21],
        &[FAILS, FAILS, ADDS],
        ONE_ANSWERED,
        (31, 2),
        ANSWERED,
    ),
    (
        &[19, 22],
        &[FAILS, FAILS, ADDS],
        ONE_ANSWERED,
        (32, 2),
        ANSWERED,
    ),
    (
        &[19, 23],
        &[FAILS, FAILS, ADDS],
        ONE_ANSWERED,
        (33, 2),
        ANSWERED,
    ),
    (
        &[19, 24],
        &[FAILS, FAILS, ADDS],
        ONE_ANSWERED,
        (34, 2),
        ANSWERED,
    ),
    (
        &[21, 22],
        &[FAILS, FAILS, ADDS],
        ONE_ANSWERED,
        (26, 2),
        ANSWERED,
    ),
    (
        &[21, 23],
        &[FAILS, FAILS, ADDS],
        ONE_ANSWERED,
        (27, 2),
        ANSWERED,
    ),
    (
        &[21, 24],
        &[FAILS, FAILS, ADDS],
        ONE_ANSWERED,
        (28, 2),
        ANSWERED,
    ),
    // The entry in doubt was kept, and the call in hand is refused by the history with it; or it
    // was dropped, and the call in hand is added.
    (
        &[21],
        &[FAILS, REFUSED_OTHER],
        ONE_ANSWERED,
        (25, 1),
        ANSWERED,
    ),
    (&[19], &[FAILS, ADDS_OTHER], ONE_ANSWERED, (29, 1), OTHER),
];

/// The answers end with what their row has.
fn expect_end_of_answers<R: Abort>(
    rt: &R,
    alloc: Global,
    (fails, steps, summary, (calls, faults), left): &Failing,
) {
    let row = Row {
        trial: Trial {
            numbers: WORKED,
            file: SERVED,
            fails,
            steps: &[steps],
        },
        summary: *summary,
        calls: *calls,
        faults: *faults,
        left,
    };
    expect_row(rt, alloc, &row);
}

#[test]
fn answers_in_which_a_call_fails(rt: HostRuntime) {
    for row in &FAILING {
        expect_end_of_answers(&rt, rt.alloc(), row);
    }
}

/// A journal of two records with two bytes after its last gate is opened by 19 calls: sync, length,
/// header, each gate, the last one twice, two for each record; then the bytes are put aside, the
/// last open gate and the closed one are read and written again, sync, cut, sync. The one of this
/// number fails; 19 is none of them.
fn expect_failed_opening<R: Abort>(rt: &R, alloc: Global, fail: u64) {
    let trial = Trial {
        numbers: WORKED,
        file: TRAILED,
        fails: &[fail],
        steps: &[],
    };
    let outcome = run(rt, alloc, &trial);
    let (fault, faults) = if fail < 19 {
        (Some(OpenFault::Disk), 1)
    } else {
        (None, 0)
    };
    expect_equal(rt, &outcome.found.fault, &fault);
    expect_calls(rt, &outcome, fail.min(18) + 1, faults);
    let left = if fail < 18 { TRAILED } else { SERVED };
    expect_parts(rt, alloc, &outcome.bytes, left);
}

#[test]
fn each_call_of_opening_fails(rt: HostRuntime) {
    for fail in 0..20u64 {
        expect_failed_opening(&rt, rt.alloc(), fail);
    }
}
