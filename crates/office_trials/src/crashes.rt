//! What is found after a call of the disk has failed in a call that adds an entry, and after a
//! crash at each moment of it.
//!
//! After the record was written a crash leaves the file as it was, and of the record any length and
//! any bytes. After its gate was written it leaves the whole record, and at the gate any value.
//! After each sync, and before the first call, it leaves what a read gives. A trial stops the
//! adding at such a moment: the next call of the disk fails.

use crate::cases::{CASES, Case, added, bytes_before, expect_opens_at};
use crate::equal::expect_equal;
use crate::expected::{expect_bytes, expect_entries, expect_parts};
use crate::files::{ANSWERED, Parts};
use crate::outcome::{Call, FAILED, Reply, SECOND, Step, Trial, WORKED, run};
use crate::rows::expect_opens;
use exam_office::Place;
use std::alloc::Global;
use std::process::Abort;

/// If this call of the disk fails, the adding leaves these bytes.
fn expect_left<R: Abort>(
    rt: &R,
    alloc: Global,
    case: &Case,
    before: &[u8],
    (fail, bytes): (u64, &[u8]),
) {
    let left = added(rt, alloc, case, before, fail);
    expect_bytes(rt, &left, bytes);
}

/// A file of this length, whose bytes after the old ones are each of one value.
fn expect_filled_opens<R: Abort>(
    rt: &R,
    alloc: Global,
    case: &Case,
    before: &[u8],
    (length, value): (usize, u8),
) {
    let mut filled = before.to_vec(alloc).expect(rt, "a file");
    filled.resize(length, value).expect(rt, "a longer file");
    expect_opens_at(rt, alloc, &[&filled], case.before);
}

/// Of a record that was written the bytes up to a length, as they are or each of one value.
fn expect_torn_opens<R: Abort>(rt: &R, alloc: Global, case: &Case, before: &[u8], torn: &[u8]) {
    expect_opens_at(rt, alloc, &[torn], case.before);
    for value in &[0u8, 1, 255] {
        expect_filled_opens(rt, alloc, case, before, (torn.len(), *value));
    }
}

/// The file is longer than the one before.
fn expect_longer<R: Abort>(rt: &R, file: &[u8], before: &[u8]) {
    assert!(rt; file.len() > before.len());
}

/// The file begins with the one before.
fn expect_front<R: Abort>(rt: &R, file: &[u8], before: &[u8]) {
    assert!(rt; file.starts_with(before));
}

/// The write, and the sync of what was written.
fn expect_written_opens<R: Abort>(rt: &R, alloc: Global, case: &Case, before: &[u8]) {
    expect_left(rt, alloc, case, before, (0, before));
    let staged = added(rt, alloc, case, before, 1);
    expect_longer(rt, &staged, before);
    expect_front(rt, &staged, before);
    expect_left(rt, alloc, case, before, (2, &staged));
    for length in before.len()..staged.len() {
        expect_torn_opens(rt, alloc, case, before, &staged[..length + 1]);
    }
}

/// The whole record, and each value at its gate. Only 1 is open.
fn expect_gates_open<R: Abort>(rt: &R, alloc: Global, case: &Case, front: &[u8], record: &[u8]) {
    for value in 0..256u16 {
        let state = if value == 1 { case.after } else { case.before };
        expect_opens_at(rt, alloc, &[front, &[value as u8], record], state);
    }
}

/// The gate, and its sync.
fn expect_gated_opens<R: Abort>(rt: &R, alloc: Global, case: &Case, before: &[u8]) {
    let gated = added(rt, alloc, case, before, 3);
    expect_longer(rt, &gated, before);
    expect_left(rt, alloc, case, before, (4, &gated));
    let gate = before.len().saturating_sub(1);
    if gate < gated.len() {
        expect_gates_open(rt, alloc, case, &gated[..gate], &gated[gate + 1..]);
    }
    expect_known(rt, alloc, &gated, case.longer);
}

/// The file is made of these parts, if they are known.
fn expect_known<R: Abort>(rt: &R, alloc: Global, file: &[u8], parts: Parts<'_>) {
    if parts.is_empty() {
        return;
    }
    expect_parts(rt, alloc, file, parts);
}

/// The same call again drops the record and adds it, or where the last sync failed keeps it.
fn expect_repeat<R: Abort>(rt: &R, alloc: Global, case: &Case, before: &[u8], fail: u64) {
    let reply = if fail == 3 { case.again } else { case.reply };
    let trial = Trial {
        numbers: WORKED,
        file: &[before],
        fails: &[case.opening.saturating_add(fail)],
        steps: &[&[(case.call, FAILED), (case.call, reply)]],
    };
    let outcome = run(rt, alloc, &trial);
    expect_entries(rt, &outcome, case.after.0);
    expect_equal(rt, &outcome.count.faults, &1);
    expect_known(rt, alloc, &outcome.bytes, case.longer);
    expect_opens_at(rt, alloc, &[&outcome.bytes], case.after);
}

/// Each call of the disk fails that adds the entry, and each image of a crash is opened.
fn expect_each_call<R: Abort>(rt: &R, alloc: Global, case: &Case) {
    let before = bytes_before(rt, alloc, case);
    expect_written_opens(rt, alloc, case, &before);
    expect_gated_opens(rt, alloc, case, &before);
    for fail in 0..4u64 {
        expect_repeat(rt, alloc, case, &before, fail);
    }
}

#[test]
fn each_image_of_each_call_is_opened(rt: HostRuntime) {
    for case in &CASES {
        expect_each_call(&rt, rt.alloc(), case);
    }
}

/// The session goes on from where it is.
#[test]
fn a_session_goes_on_after_a_crash(rt: HostRuntime) {
    expect_opens(&rt, rt.alloc(), ANSWERED, &AFTER_THE_ANSWER, 4);
}

const AFTER_THE_ANSWER: [Step; 2] = [
    (Call::Look(0), Reply::At(Place::Pending(1))),
    (Call::Serve(0), Reply::At(SECOND)),
];
