//! The summaries of drills.

ghost use Rattle.std.specs.Prelude.{◌≤◌};

use crate::equal::expect_equal;
use exam_drill::run_drill;
use history_model::Summary;
use std::alloc::Global;
use std::process::Abort;

fn summary_of<R: Abort>(rt: &R, alloc: Global, number: u32, sessions: u32) -> Summary
    requires some { 1 ≤ sessions }
    requires few { sessions ≤ 200 }
{
    match run_drill(alloc, number, sessions) {
        Ok(summary) => summary,
        Err(_) => panic!(rt; "no summary"),
    }
}

/// Entries, sessions, finished sessions, items served, and sessions in which eligibility was set
/// aside.
fn numbers_of(summary: &Summary) -> [u64; 5] {
    [
        summary.entries,
        u64::from(summary.sessions),
        u64::from(summary.finished),
        summary.proved.wrapping_add(summary.unproved),
        summary.aside,
    ]
}

/// Two sessions: 2 starts, 31 items served, 30 answers and the close of the last session. The
/// second run gives the same.
#[test]
fn two_sessions(rt: HostRuntime) {
    let summary = summary_of(&rt, rt.alloc(), 7, 2);
    expect_equal(&rt, &numbers_of(&summary), &[64, 2, 2, 31, 0]);
    expect_equal(&rt, &summary_of(&rt, rt.alloc(), 7, 2), &summary);
}

/// Ten sessions: 10 starts, 191 items served, 190 answers and the close of the last session. All
/// start before one is finished, so every item is eligible for each.
#[test]
fn ten_sessions(rt: HostRuntime) {
    let summary = summary_of(&rt, rt.alloc(), 1, 10);
    expect_equal(&rt, &numbers_of(&summary), &[392, 10, 10, 191, 0]);
}
