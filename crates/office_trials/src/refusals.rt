//! Each refusal of a call with its value. A refused call adds no entry, and makes no call of the
//! disk.

use crate::expected::{expect_entries, expect_same};
use crate::files::{ANSWERED, CLOSE, EMPTY, END, HEADER, Parts, REST, SERVED, START, STARTED};
use crate::outcome::{
    BEGUN, Call, FIRST, FOUND, NOTHING, Numbers, Reply, SECOND, SESSION, Step, THIRD, Trial,
    WORKED, calm, run,
};
use crate::rows::{ONE_ANSWERED, ONE_SERVED, ONE_STARTED, Row, expect_row};
use crate::sessions::TWO_SESSIONS;
use exam_office::{Begun, Place, Refusal, Summary};
use std::alloc::Global;
use std::process::Abort;

const IS_CLOSED: Reply = Reply::Refused(Refusal::IsClosed(Place::Closed));

const NO_SESSION: Reply = Reply::Refused(Refusal::NoSession(2));

const SECOND_FOUND: Reply = Reply::Begun(Begun {
    session: 1,
    fresh: false,
});

/// Calls that add nothing after the two sessions, and what they give.
const CALLS_AFTER: [Step; 13] = [
    (Call::Answer(0, 0, 1), Reply::At(SECOND)),
    (Call::Answer(0, 0, 0), Reply::Refused(Refusal::Other(1))),
    (Call::Answer(0, 2, 1), Reply::Refused(Refusal::WrongStep(1))),
    (
        Call::Answer(0, 1, 2),
        Reply::Refused(Refusal::BadResponse(2)),
    ),
    (Call::Begin(1), FOUND),
    (Call::Begin(2), SECOND_FOUND),
    (Call::Answer(9, 0, 0), NO_SESSION),
    (Call::Answer(1, 0, 0), IS_CLOSED),
    (Call::Close(1), IS_CLOSED),
    (Call::Close(2), NO_SESSION),
    (Call::Look(2), NO_SESSION),
    (Call::Look(0), Reply::At(SECOND)),
    (Call::Look(1), Reply::At(Place::Closed)),
];

const OTHER_BOOKING: Reply = Reply::Refused(Refusal::OtherBooking);

/// Calls that name a booking, after the two sessions, and what they give. Session 0 is of booking
/// 1, session 1 of booking 2, and booking 9 has no session. The first two would add an entry if the
/// booking were not compared. The others have a second fault, or repeat an answer.
const NAMED_AFTER: [Step; 15] = [
    (Call::AnswerFor(0, 1, 0, 2), OTHER_BOOKING),
    (Call::CloseFor(0, 2), OTHER_BOOKING),
    (Call::AnswerFor(0, 1, 0, 9), OTHER_BOOKING),
    (Call::CloseFor(0, 9), OTHER_BOOKING),
    (Call::AnswerFor(0, 0, 1, 2), OTHER_BOOKING),
    (Call::AnswerFor(0, 0, 0, 2), OTHER_BOOKING),
    (Call::AnswerFor(0, 2, 1, 2), OTHER_BOOKING),
    (Call::AnswerFor(0, 1, 2, 2), OTHER_BOOKING),
    (Call::AnswerFor(1, 0, 0, 1), OTHER_BOOKING),
    (Call::CloseFor(1, 1), OTHER_BOOKING),
    (Call::AnswerFor(9, 0, 0, 1), NO_SESSION),
    (Call::CloseFor(2, 1), NO_SESSION),
    (Call::AnswerFor(0, 0, 1, 1), Reply::At(SECOND)),
    (
        Call::AnswerFor(0, 2, 1, 1),
        Reply::Refused(Refusal::WrongStep(1)),
    ),
    (Call::CloseFor(1, 2), IS_CLOSED),
];

/// Over this file the calls leave the history, the file and the count of the disk's calls as the
/// first ones do. The history has so many entries then.
fn expect_no_more<R: Abort>(
    rt: &R,
    alloc: Global,
    file: Parts<'_>,
    (first, steps): (&[&[Step]], &[&[Step]]),
    entries: u64,
) {
    let was = run(rt, alloc, &calm(file, first));
    let now = run(rt, alloc, &calm(file, steps));
    expect_entries(rt, &was, entries);
    expect_same(rt, &now, &was);
}

#[test]
fn calls_that_add_nothing(rt: HostRuntime) {
    for step in &CALLS_AFTER {
        let steps: [&[Step]; 2] = [&TWO_SESSIONS, &[*step]];
        expect_no_more(&rt, rt.alloc(), &[], (&[&TWO_SESSIONS], &steps), 7);
    }
}

#[test]
fn calls_with_a_booking_that_add_nothing(rt: HostRuntime) {
    for step in &NAMED_AFTER {
        let steps: [&[Step]; 2] = [&TWO_SESSIONS, &[*step]];
        expect_no_more(&rt, rt.alloc(), &[], (&[&TWO_SESSIONS], &steps), 7);
    }
}

/// The answers of the worked session with its booking.
const NAMED_SESSION: [Step; 7] = [
    (Call::Begin(70), BEGUN),
    (Call::Serve(0), Reply::At(FIRST)),
    (Call::AnswerFor(0, 0, 1, 70), Reply::At(Place::Pending(1))),
    (Call::Serve(0), Reply::At(SECOND)),
    (Call::AnswerFor(0, 1, 0, 70), Reply::At(Place::Pending(2))),
    (Call::Serve(0), Reply::At(THIRD)),
    (Call::AnswerFor(0, 2, 1, 70), Reply::At(Place::Complete)),
];

const CLOSED: [Step; 1] = [(Call::Close(0), Reply::At(Place::Closed))];

const CLOSED_FOR: [Step; 1] = [(Call::CloseFor(0, 70), Reply::At(Place::Closed))];

/// An answer and a closing with the booking of the session write what they write without it.
#[test]
fn calls_with_the_right_booking(rt: HostRuntime) {
    let alloc = rt.alloc();
    expect_no_more(&rt, alloc, &[], (&[&SESSION], &[&NAMED_SESSION]), 7);
    expect_no_more(&rt, alloc, STARTED, (&[&CLOSED], &[&CLOSED_FOR]), 2);
}

/// The worked session with calls that come too soon, and at the end too late. A session that waits
/// for an item takes no answer, and one that is complete is not closed.
const TOO_SOON: [Step; 11] = [
    (Call::Begin(70), BEGUN),
    (Call::Answer(0, 0, 0), Reply::Refused(Refusal::WrongStep(0))),
    (Call::Serve(0), Reply::At(FIRST)),
    (Call::Answer(0, 0, 1), Reply::At(Place::Pending(1))),
    (Call::Answer(0, 1, 0), Reply::Refused(Refusal::WrongStep(1))),
    (Call::Serve(0), Reply::At(SECOND)),
    (Call::Answer(0, 1, 0), Reply::At(Place::Pending(2))),
    (Call::Serve(0), Reply::At(THIRD)),
    (Call::Answer(0, 2, 1), Reply::At(Place::Complete)),
    (Call::Answer(0, 3, 0), IS_COMPLETE),
    (Call::Close(0), IS_COMPLETE),
];

const IS_COMPLETE: Reply = Reply::Refused(Refusal::IsClosed(Place::Complete));

/// The first item of the started session is served; or it is committed twice, and stale once the
/// session was served.
const SERVED_ONCE: &[Step] = &[(Call::Serve(0), Reply::At(FIRST))];

const SERVED_TWICE: &[Step] = &[(
    Call::ServeAgain(0),
    Reply::Refused(Refusal::Stale(FIRST, false)),
)];

#[test]
fn calls_among_others(rt: HostRuntime) {
    let alloc = rt.alloc();
    expect_no_more(&rt, alloc, &[], (&[&SESSION], &[&TOO_SOON]), 7);
    expect_no_more(&rt, alloc, STARTED, (&[SERVED_ONCE], &[SERVED_TWICE]), 2);
}

const FULL_AT_92: Step = (Call::Begin(70), Reply::Refused(Refusal::JournalFull(92)));

const FULL_AT_197: Step = (
    Call::Answer(0, 0, 1),
    Reply::Refused(Refusal::JournalFull(197)),
);

const REFUSALS: [Row<'static>; 6] = [
    // What was assembled is stale once the session was closed.
    Row {
        trial: Trial {
            numbers: WORKED,
            file: STARTED,
            fails: &[],
            steps: &[&[(
                Call::ServeLate(0),
                Reply::Refused(Refusal::Stale(Place::Closed, false)),
            )]],
        },
        summary: Summary {
            entries: 2,
            finished: 1,
            ..ONE_STARTED
        },
        calls: 19,
        faults: 0,
        left: &[HEADER, START, REST, CLOSE, END],
    },
    // With one session allowed a second booking is refused, and the first has its session.
    Row {
        trial: Trial {
            numbers: Numbers {
                sessions: 1,
                ..WORKED
            },
            file: &[],
            fails: &[],
            steps: &[&[
                (Call::Begin(70), BEGUN),
                (Call::Begin(71), Reply::Refused(Refusal::SessionsFull(1))),
                (Call::Begin(70), FOUND),
            ]],
        },
        summary: ONE_STARTED,
        calls: 10,
        faults: 0,
        left: STARTED,
    },
    // A start makes the journal 92 bytes long, and the first answer 197. One byte less is too few,
    // and so it is once more.
    Row {
        trial: Trial {
            numbers: Numbers {
                journal: 91,
                ..WORKED
            },
            file: EMPTY,
            fails: &[],
            steps: &[&[FULL_AT_92, FULL_AT_92]],
        },
        summary: NOTHING,
        calls: 6,
        faults: 0,
        left: EMPTY,
    },
    Row {
        trial: Trial {
            numbers: Numbers {
                journal: 196,
                ..WORKED
            },
            file: SERVED,
            fails: &[],
            steps: &[&[FULL_AT_197, FULL_AT_197]],
        },
        summary: ONE_SERVED,
        calls: 18,
        faults: 0,
        left: SERVED,
    },
    // With the length after the entry as the limit it is added. A served item makes the journal at
    // least 174 bytes long: 92, then 5, 76 of the entry, and those of the tree.
    Row {
        trial: Trial {
            numbers: Numbers {
                journal: 92,
                ..WORKED
            },
            file: &[],
            fails: &[],
            steps: &[&[(Call::Begin(70), BEGUN), (Call::Serve(0), Reply::Full(174))]],
        },
        summary: ONE_STARTED,
        calls: 10,
        faults: 0,
        left: STARTED,
    },
    Row {
        trial: Trial {
            numbers: Numbers {
                journal: 197,
                ..WORKED
            },
            file: SERVED,
            fails: &[],
            steps: &[&[(Call::Answer(0, 0, 1), Reply::At(Place::Pending(1)))]],
        },
        summary: ONE_ANSWERED,
        calls: 22,
        faults: 0,
        left: ANSWERED,
    },
];

#[test]
fn calls_refused_by_the_plan(rt: HostRuntime) {
    for row in &REFUSALS {
        expect_row(&rt, rt.alloc(), row);
    }
}
