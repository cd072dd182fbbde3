//! Calls that add an entry, over a journal of no byte after its last gate. The first calls of the
//! disk open it, and adding is four: write, sync, open the gate, sync.
//!
//! A whole journal is opened by twelve calls and three for each record: sync, length, header, each
//! gate, the last one twice, two for each record; then the last open gate and the closed one are
//! read and written again, sync, cut, sync. One of no record is made anew by six: sync, length,
//! cut, sync, write, sync.

use crate::expected::{expect_calls, expect_entries};
use crate::files::{ANSWERED, CLOSED, EMPTY, Parts, SERVED, STARTED, joined};
use crate::outcome::{
    BEGUN, Call, FAILED, FIRST, FOUND, Reply, SECOND, SESSION, THIRD, Trial, WORKED, run,
};
use crate::rows::expect_opens;
use exam_office::{Place, Refusal};
use std::alloc::Global;
use std::process::Abort;

/// How many entries a history has, and where session 0 is.
pub(crate) type State = (u64, Reply);

/// A call that adds an entry.
pub(crate) struct Case {
    pub call: Call,
    /// What it gives.
    pub reply: Reply,
    /// What it gives where its entry is there already.
    pub again: Reply,
    /// A file. The journal before the call is what the earlier calls leave of it.
    pub file: Parts<'static>,
    /// How many calls of the worked session are made first.
    pub earlier: usize,
    /// The journal with its entry; no part where the entry has a tree.
    pub longer: Parts<'static>,
    /// How many calls of the disk open the journal before it.
    pub opening: u64,
    pub before: State,
    pub after: State,
}

/// Each call of the worked session, and one that closes it.
pub(crate) const CASES: [Case; 8] = [
    Case {
        call: Call::Begin(70),
        reply: BEGUN,
        again: FOUND,
        file: EMPTY,
        earlier: 0,
        longer: STARTED,
        opening: 6,
        before: (0, Reply::Refused(Refusal::NoSession(0))),
        after: (1, Reply::At(Place::Pending(0))),
    },
    Case {
        call: Call::Serve(0),
        reply: Reply::At(FIRST),
        again: Reply::Refused(Refusal::Stale(FIRST, false)),
        file: STARTED,
        earlier: 0,
        longer: &[],
        opening: 15,
        before: (1, Reply::At(Place::Pending(0))),
        after: (2, Reply::At(FIRST)),
    },
    Case {
        call: Call::Answer(0, 0, 1),
        reply: Reply::At(Place::Pending(1)),
        again: Reply::At(Place::Pending(1)),
        file: SERVED,
        earlier: 0,
        longer: ANSWERED,
        opening: 18,
        before: (2, Reply::At(FIRST)),
        after: (3, Reply::At(Place::Pending(1))),
    },
    Case {
        call: Call::Serve(0),
        reply: Reply::At(SECOND),
        again: Reply::Refused(Refusal::Stale(SECOND, false)),
        file: &[],
        earlier: 3,
        longer: &[],
        opening: 21,
        before: (3, Reply::At(Place::Pending(1))),
        after: (4, Reply::At(SECOND)),
    },
    Case {
        call: Call::Answer(0, 1, 0),
        reply: Reply::At(Place::Pending(2)),
        again: Reply::At(Place::Pending(2)),
        file: &[],
        earlier: 4,
        longer: &[],
        opening: 24,
        before: (4, Reply::At(SECOND)),
        after: (5, Reply::At(Place::Pending(2))),
    },
    Case {
        call: Call::Serve(0),
        reply: Reply::At(THIRD),
        again: Reply::Refused(Refusal::Stale(THIRD, false)),
        file: &[],
        earlier: 5,
        longer: &[],
        opening: 27,
        before: (5, Reply::At(Place::Pending(2))),
        after: (6, Reply::At(THIRD)),
    },
    Case {
        call: Call::Answer(0, 2, 1),
        reply: Reply::At(Place::Complete),
        again: Reply::At(Place::Complete),
        file: &[],
        earlier: 6,
        longer: &[],
        opening: 30,
        before: (6, Reply::At(THIRD)),
        after: (7, Reply::At(Place::Complete)),
    },
    Case {
        call: Call::Close(0),
        reply: Reply::At(Place::Closed),
        again: Reply::Refused(Refusal::IsClosed(Place::Closed)),
        file: SERVED,
        earlier: 0,
        longer: CLOSED,
        opening: 18,
        before: (2, Reply::At(FIRST)),
        after: (3, Reply::At(Place::Closed)),
    },
];

/// The journal before the call.
pub(crate) fn bytes_before<R: Abort>(rt: &R, alloc: Global, case: &Case) -> Vec<u8> {
    if case.earlier == 0 {
        return joined(rt, alloc, case.file);
    }
    let earlier = SESSION.get(..case.earlier).expect(rt, "earlier calls");
    let trial = Trial {
        numbers: WORKED,
        file: case.file,
        fails: &[],
        steps: &[earlier],
    };
    run(rt, alloc, &trial).bytes
}

/// The file is opened, the session is looked at, and this is found.
pub(crate) fn expect_opens_at<R: Abort>(
    rt: &R,
    alloc: Global,
    file: Parts<'_>,
    (entries, place): State,
) {
    expect_opens(rt, alloc, file, &[(Call::Look(0), place)], entries);
}

/// What the call gives where this call of the disk fails in its adding; how many entries the
/// history has then, and how many calls of the disk failed. 4 is no call of the adding.
fn reply_at(case: &Case, fail: u64) -> (Reply, u64, u64) {
    if fail < 4 {
        (FAILED, case.before.0, 1)
    } else {
        (case.reply, case.after.0, 0)
    }
}

/// What the file shows then once it is opened again.
fn state_at(case: &Case, fail: u64) -> State {
    if fail < 3 { case.before } else { case.after }
}

/// The call is made over the journal before it, where this call of the disk fails in its adding.
/// What is left is opened.
pub(crate) fn added<R: Abort>(
    rt: &R,
    alloc: Global,
    case: &Case,
    before: &[u8],
    fail: u64,
) -> Vec<u8> {
    let (reply, entries, faults) = reply_at(case, fail);
    let trial = Trial {
        numbers: WORKED,
        file: &[before],
        fails: &[case.opening.saturating_add(fail)],
        steps: &[&[(case.call, reply)]],
    };
    let outcome = run(rt, alloc, &trial);
    expect_entries(rt, &outcome, entries);
    let calls = case.opening.saturating_add(fail.min(3) + 1);
    expect_calls(rt, &outcome, calls, faults);
    expect_opens_at(rt, alloc, &[&outcome.bytes], state_at(case, fail));
    outcome.bytes
}
