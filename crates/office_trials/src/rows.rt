//! Trials, each with all that is found after it.

use crate::expected::{expect_calls, expect_entries, expect_parts, expect_summary};
use crate::files::Parts;
use crate::outcome::{Step, Trial, WORKED, run};
use exam_office::Summary;
use std::alloc::Global;
use std::process::Abort;

/// A trial, and what it ends with: the summary of the history, how many calls of the disk were
/// made, how many of them failed, and the file.
#[derive(Clone, Copy)]
pub(crate) struct Row<'a> {
    pub trial: Trial<'a>,
    pub summary: Summary,
    pub calls: u64,
    pub faults: u64,
    pub left: Parts<'a>,
}

/// The summary after session 0 was started.
pub(crate) const ONE_STARTED: Summary = Summary {
    entries: 1,
    sessions: 1,
    finished: 0,
    proved: 0,
    unproved: 0,
    aside: 0,
    nodes: 0,
};

/// The same after its first item was served from a form that a tree of one node proves best.
pub(crate) const ONE_SERVED: Summary = Summary {
    entries: 2,
    sessions: 1,
    finished: 0,
    proved: 1,
    unproved: 0,
    aside: 0,
    nodes: 1,
};

/// The same after the item was answered.
pub(crate) const ONE_ANSWERED: Summary = Summary {
    entries: 3,
    sessions: 1,
    finished: 0,
    proved: 1,
    unproved: 0,
    aside: 0,
    nodes: 1,
};

/// The trial ends with what its row has.
pub(crate) fn expect_row<R: Abort>(rt: &R, alloc: Global, row: &Row<'_>) {
    let outcome = run(rt, alloc, &row.trial);
    expect_summary(rt, &outcome, &row.summary);
    expect_calls(rt, &outcome, row.calls, row.faults);
    expect_parts(rt, alloc, &outcome.bytes, row.left);
}

/// The file is opened under the worked plan, the calls give their replies, and the history has so
/// many entries then.
pub(crate) fn expect_opens<R: Abort>(
    rt: &R,
    alloc: Global,
    file: Parts<'_>,
    steps: &[Step],
    entries: u64,
) {
    let trial = Trial {
        numbers: WORKED,
        file,
        fails: &[],
        steps: &[steps],
    };
    let outcome = run(rt, alloc, &trial);
    expect_entries(rt, &outcome, entries);
}
