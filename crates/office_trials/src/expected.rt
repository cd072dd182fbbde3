//! What is found beside what is expected.

use crate::equal::expect_equal;
use crate::files::{Parts, joined};
use crate::outcome::Outcome;
use exam_office::Summary;
use std::alloc::Global;
use std::process::Abort;

/// The file was opened, and the history has so many entries.
pub(crate) fn expect_entries<R: Abort>(rt: &R, outcome: &Outcome, entries: u64) {
    expect_equal(rt, &outcome.found.fault, &None);
    expect_equal(rt, &outcome.found.summary.entries, &entries);
}

/// The file was opened, and the history has this summary.
pub(crate) fn expect_summary<R: Abort>(rt: &R, outcome: &Outcome, summary: &Summary) {
    expect_equal(rt, &outcome.found.fault, &None);
    expect_equal(rt, &outcome.found.summary, summary);
}

/// So many calls of the disk were made, and so many of them failed.
pub(crate) fn expect_calls<R: Abort>(rt: &R, outcome: &Outcome, calls: u64, faults: u64) {
    expect_equal(rt, &outcome.count.calls, &calls);
    expect_equal(rt, &outcome.count.faults, &faults);
}

/// The file has these bytes.
pub(crate) fn expect_bytes<R: Abort>(rt: &R, left: &[u8], bytes: &[u8]) {
    expect_equal(rt, &left, &bytes);
}

/// The file is made of these parts.
pub(crate) fn expect_parts<R: Abort>(rt: &R, alloc: Global, left: &[u8], parts: Parts<'_>) {
    expect_bytes(rt, left, &joined(rt, alloc, parts));
}

/// The history, the file and the count of the disk's calls are the same.
pub(crate) fn expect_same<R: Abort>(rt: &R, now: &Outcome, was: &Outcome) {
    expect_summary(rt, now, &was.found.summary);
    expect_calls(rt, now, was.count.calls, was.count.faults);
    expect_bytes(rt, &now.bytes, &was.bytes);
}
