//! Requests on bank A: the replies that were worked out by hand.

use crate::answers::{Answered, answers};
use crate::equal::expect_equal;
use crate::office::{EVEN, Numbers, RARE};
use crate::requests::{
    Ask, FIRST, FIRST_ANSWER, LATER_FIRST, LATER_FIRST_ANSWER, LATER_SECOND, LATER_SECOND_ANSWER,
    LATER_THIRD, LATER_THIRD_ANSWER, OTHER_ANSWER, SECOND, SECOND_ANSWER, THIRD, THIRD_ANSWER,
    Told,
};
use exam_office::{Place, Refusal};
use std::alloc::Global;
use std::process::Abort;
use std::test::Fail;

const START: Ask = Ask::Begin(70);

// Requests over an empty journal, the calls of the disk that fail, the replies, and the exposure
// counts in them.
struct Case {
    numbers: Numbers,
    fails: &'static [u64],
    requests: &'static [Ask],
    replies: &'static [Told],
    counts: &'static [(u32, u32)],
}

// An answer with a response that its item does not have.
const BAD_RESPONSE: Ask = Ask::Answer {
    session: 0,
    step: 1,
    response: 2,
};

// An answer to a session that does not exist.
const NO_SESSION: Ask = Ask::Answer {
    session: 9,
    step: 0,
    response: 0,
};

const CASES: [Case; 4] = [
    // One session to its end. The same answer again, and the same booking again, add nothing.
    Case {
        numbers: EVEN,
        fails: &[],
        requests: &[
            START,
            FIRST_ANSWER,
            FIRST_ANSWER,
            SECOND_ANSWER,
            Ask::Look(0),
            START,
            THIRD_ANSWER,
            Ask::Exposure,
        ],
        replies: &[
            Ok((0, FIRST, true)),
            Ok((0, SECOND, false)),
            Ok((0, SECOND, false)),
            Ok((0, THIRD, false)),
            Ok((0, THIRD, false)),
            Ok((0, THIRD, false)),
            Ok((0, Place::Complete, false)),
            Ok((1, Place::Complete, false)),
        ],
        counts: &[(0, 1), (1, 1), (1, 1), (0, 1), (1, 1), (0, 1)],
    },
    // The items shown in session 0 are ineligible in session 1, and in session 2 eligibility is set
    // aside.
    Case {
        numbers: RARE,
        fails: &[],
        requests: &[
            START,
            FIRST_ANSWER,
            SECOND_ANSWER,
            THIRD_ANSWER,
            Ask::Begin(71),
            LATER_FIRST_ANSWER,
            LATER_SECOND_ANSWER,
            LATER_THIRD_ANSWER,
            Ask::Begin(72),
            Ask::Close(2),
            Ask::Exposure,
        ],
        replies: &[
            Ok((0, FIRST, true)),
            Ok((0, SECOND, false)),
            Ok((0, THIRD, false)),
            Ok((0, Place::Complete, false)),
            Ok((1, LATER_FIRST, true)),
            Ok((1, LATER_SECOND, false)),
            Ok((1, LATER_THIRD, false)),
            Ok((1, Place::Complete, false)),
            Ok((2, FIRST, true)),
            Ok((2, Place::Closed, false)),
            Ok((3, Place::Complete, false)),
        ],
        counts: &[(1, 3), (1, 2), (2, 2), (1, 3), (1, 2), (1, 3)],
    },
    // Two sessions, one of which is closed, and what is refused. The exposure is asked before
    // session 1 is closed, and after it.
    Case {
        numbers: EVEN,
        fails: &[],
        requests: &[
            Ask::Begin(1),
            Ask::Begin(2),
            FIRST_ANSWER,
            Ask::Exposure,
            Ask::Close(1),
            Ask::Exposure,
            FIRST_ANSWER,
            OTHER_ANSWER,
            THIRD_ANSWER,
            BAD_RESPONSE,
            Ask::Begin(1),
            NO_SESSION,
            LATER_FIRST_ANSWER,
            Ask::Close(1),
            Ask::Look(9),
        ],
        replies: &[
            Ok((0, FIRST, true)),
            Ok((1, FIRST, true)),
            Ok((0, SECOND, false)),
            Ok((0, Place::Complete, false)),
            Ok((1, Place::Closed, false)),
            Ok((1, Place::Complete, false)),
            Ok((0, SECOND, false)),
            Err(Refusal::Other(1)),
            Err(Refusal::WrongStep(1)),
            Err(Refusal::BadResponse(2)),
            Ok((0, SECOND, false)),
            Err(Refusal::NoSession(2)),
            Err(Refusal::IsClosed(Place::Closed)),
            Err(Refusal::IsClosed(Place::Closed)),
            Err(Refusal::NoSession(2)),
        ],
        counts: &[
            (0, 0),
            (0, 0),
            (0, 0),
            (0, 0),
            (0, 0),
            (0, 0),
            (0, 1),
            (0, 1),
            (1, 1),
            (0, 1),
            (0, 1),
            (0, 1),
        ],
    },
    // The disk fails in the last of the four calls of a closing, so its record is there. Asking for
    // the exposure adopts it.
    Case {
        numbers: EVEN,
        fails: &[17],
        requests: &[START, Ask::Close(0), Ask::Exposure],
        replies: &[
            Ok((0, FIRST, true)),
            Err(Refusal::Disk),
            Ok((1, Place::Complete, false)),
        ],
        counts: &[(0, 1), (0, 1), (1, 1), (0, 1), (0, 1), (0, 1)],
    },
];

// The office gives the replies and counts of the case.
fn expect_replies<R: Abort>(rt: &R, alloc: Global, case: &Case) -> Result<(), Fail> {
    let answered = answers(alloc, &case.numbers, case.fails, case.requests)?;
    expect_equal(rt, &answered.replies.as_slice(), &case.replies);
    expect_equal(rt, &answered.counts.as_slice(), &case.counts);
    Ok(())
}

#[test]
fn sessions(rt: HostRuntime) -> Result<(), Fail> {
    for case in &CASES {
        expect_replies(&rt, rt.alloc(), case)?;
    }
    Ok(())
}

// The reply of this number.
fn expect_reply<R: Abort>(rt: &R, answered: &Answered, at: usize, told: Told) {
    expect_equal(rt, &answered.replies.get(at), &Some(&told));
}

// Each request is made twice.
const TWICE: [Ask; 5] = [START, START, FIRST_ANSWER, FIRST_ANSWER, Ask::Look(0)];

// Where this call of the disk fails, its request is refused, and in the end all is as without a
// fault.
fn expect_halt<R: Abort>(rt: &R, alloc: Global, call: u64, length: usize) -> Result<(), Fail> {
    let found = answers(alloc, &EVEN, &[call], &TWICE)?;
    let failed = if call < 14 { 0 } else { 2 };
    expect_reply(rt, &found, failed, Err(Refusal::Disk));
    expect_reply(rt, &found, 4, Ok((0, SECOND, false)));
    expect_equal(rt, &found.length, &length);
    Ok(())
}

// Each call of the disk fails once. The next request finds the entry, or adds it anew.
#[test]
fn a_halted_request_is_asked_again(rt: HostRuntime) -> Result<(), Fail> {
    let length = answers(rt.alloc(), &EVEN, &[], &TWICE)?.length;
    for call in 6..22u64 {
        expect_halt(&rt, rt.alloc(), call, length)?;
    }
    Ok(())
}

const FILLING: [Ask; 3] = [START, START, Ask::Look(0)];

const FULL: [Told; 3] = [
    Err(Refusal::JournalFull(92)),
    Err(Refusal::JournalFull(92)),
    Err(Refusal::NoSession(0)),
];

// The replies to these requests at this limit of the journal.
fn filled(alloc: Global, journal: u64) -> Result<Answered, Fail> {
    let numbers = Numbers { journal, ..EVEN };
    answers(alloc, &numbers, &[], &FILLING)
}

// The first record needs 92 bytes. At a limit of 91 nothing is added.
#[test]
fn the_journal_is_full(rt: HostRuntime) -> Result<(), Fail> {
    let answered = filled(rt.alloc(), 91)?;
    expect_equal(&rt, &answered.replies.as_slice(), &FULL.as_slice());
    expect_equal(&rt, &answered.length, &9);
    Ok(())
}

// Each reply is that a longer journal is needed, and of one length.
fn expect_no_room<R: Abort>(rt: &R, answered: &Answered) {
    let first = answered.replies.get(0);
    assert!(rt; matches!(first, Some(Err(Refusal::JournalFull(_)))));
    expect_equal(rt, &answered.replies.get(1), &first);
    expect_equal(rt, &answered.replies.get(2), &first);
}

// At a limit of 92 bytes the session is started and not served.
#[test]
fn the_journal_is_full_once_the_session_is_started(rt: HostRuntime) -> Result<(), Fail> {
    let answered = filled(rt.alloc(), 92)?;
    expect_no_room(&rt, &answered);
    expect_equal(&rt, &answered.length, &92);
    Ok(())
}
