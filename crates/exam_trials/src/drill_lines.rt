//! The lines that a drill prints.

use crate::equal::expect_equal;
use exam_drill::drill_line;
use exam_lines::summary_line;
use history_model::Summary;

const SUMMARY: Summary = Summary {
    entries: 64,
    sessions: 2,
    finished: 1,
    proved: 30,
    unproved: 3,
    aside: 4,
    nodes: 18_446_744_073_709_551_615,
};

const LINE: &str =
    "entries 64 sessions 2 finished 1 proved 30 unproved 3 aside 4 nodes 18446744073709551615\n";

#[test]
fn lines_of_a_drill(rt: HostRuntime) {
    let line = summary_line(rt.alloc(), &SUMMARY).expect(&rt, "a line");
    expect_equal(&rt, &line.as_str(), &LINE);
    let line = drill_line(rt.alloc(), 4_294_967_295, 200).expect(&rt, "a line");
    expect_equal(&rt, &line.as_str(), &"drill 4294967295 sessions 200\n");
}
