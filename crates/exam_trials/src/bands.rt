//! Sessions under plans with bands of abilities: their items, the exposure, journals that go on,
//! and what is refused.

use crate::outcome::{CHECK, REPLAY, expect_audit, expect_second_run, expect_text};
use trial_cases::{BANK_A, PLAN_A};

/// Bank A, but response 1 to item 5 raises the estimate.
pub const BANK_UP: &str = "item,stimulus,categories,i0,i1,i2,l0_0,l0_1,l0_2,l1_0,l1_1,l1_2
0,0,2,9,5,1,-7,-7,-7,-7,-7,-7
1,0,2,7,8,2,-7,-7,-7,-7,-7,-7
2,0,2,4,9,3,-7,-7,-7,-30,-15,-1
3,0,2,2,6,8,-7,-7,-7,-7,-7,-7
4,0,2,1,4,9,0,-1,-20,-7,-7,-7
5,0,2,3,7,5,-7,-7,-7,-30,-15,-1
";

pub const PLAN_UP: &str = "length 3
prior -10 0 -10
count 1 1 0-1
enemies 2 5
rate 1 65535
key 0000000000000000000000000000000000000000000000000000000000000000
bands 2
";

/// Items 1, 2 and 3 are shown in the lower band, so they are not eligible there for session 1. Its
/// first response raises the estimate to the upper band, where each item is eligible.
const SCRIPT_UP: &str =
    "begin 70\nanswer 0 0 0\nanswer 0 1 0\nanswer 0 2 0\nbegin 71\nanswer 1 0 1\nanswer 1 1 1\nclose 1\nexposure\n";

const LINES_UP: &str = "session 0 step 0 item 2 proved
session 0 step 1 item 1 proved
session 0 step 2 item 3 proved
session 0 complete
session 1 step 0 item 5 proved
session 1 step 1 item 4 proved
session 1 step 2 item 1 proved
session 1 closed
exposure finished 2
item 0 shown 0 eligible 2
item 1 shown 2 eligible 2
item 2 shown 1 eligible 2
item 3 shown 1 eligible 2
item 4 shown 1 eligible 2
item 5 shown 1 eligible 2
";

/// Three items of two points each. Response 1 to item 0 or 1 raises the estimate from the lower
/// band to the upper one.
const BANK_TWO: &str = "item,stimulus,categories,i0,i1,l0_0,l0_1,l1_0,l1_1
0,0,2,9,1,-1,-1,-9,-1
1,0,2,8,5,-1,-1,-9,-1
2,0,2,7,4,-1,-1,-1,-1
";

const PLAN_TWO: &str = "length 2
prior 0 -1
rate 1 65535
key 0000000000000000000000000000000000000000000000000000000000000000
bands 1
";

const BEGUN_TWO: &str =
    "begin 70\nanswer 0 0 1\nanswer 0 1 0\nbegin 71\nanswer 1 0 1\nanswer 1 1 0\nbegin 72\n";

/// Three sessions. Eligibility is set aside for the last one in both bands.
const SCRIPT_TWO: &str =
    "begin 70\nanswer 0 0 1\nanswer 0 1 0\nbegin 71\nanswer 1 0 1\nanswer 1 1 0\nbegin 72\nanswer 2 0 1\nanswer 2 1 0\n";

const LINES_BEGUN: &str = "session 0 step 0 item 0 proved
session 0 step 1 item 1 proved
session 0 complete
session 1 step 0 item 1 proved
session 1 step 1 item 2 proved
session 1 complete
session 2 step 0 item 0 proved
";

/// Eligibility was set aside for session 2 in the lower band. It is set aside in the upper one when
/// the session comes there: there items 1 and 2 were shown, and item 0 is given, so no form is
/// left.
const REST_TWO: &str = "answer 2 0 1\nanswer 2 1 0\nexposure\n";

const LINES_REST: &str = "session 2 step 1 item 1 proved
session 2 complete
exposure finished 3
item 0 shown 2 eligible 3
item 1 shown 3 eligible 3
item 2 shown 1 eligible 3
";

#[test]
fn items_by_band(rt: HostRuntime) {
    expect_text(&rt, &REPLAY, &[BANK_UP, PLAN_UP, SCRIPT_UP], 0, LINES_UP);
    let begun = [BANK_TWO, PLAN_TWO, BEGUN_TWO];
    expect_text(&rt, &REPLAY, &begun, 0, LINES_BEGUN);
    let rest = [BANK_TWO, PLAN_TWO, REST_TWO];
    expect_second_run(&rt, &begun, &rest, LINES_REST);
}

/// Under a plan with bands, a response that lowers the estimate brings its session back to the
/// lower band; without bands, the items that are not eligible stay so.
#[test]
fn items_of_the_lower_band(rt: HostRuntime) {
    let front = "session 0 step 0 item 2 proved
session 0 step 1 item 1 proved
session 0 step 2 item 3 proved
session 0 complete
session 1 step 0 item 5 proved
session 1 step 1 item 4 proved
session 1 step 2 item 0 proved
";
    let back =
        "begin 70\nanswer 0 0 0\nanswer 0 1 0\nanswer 0 2 0\nbegin 71\nanswer 1 0 1\nanswer 1 1 0\n";
    expect_text(&rt, &REPLAY, &[BANK_UP, PLAN_UP, back], 0, front);
    let no_bands =
        "length 3\nprior -10 0 -10\ncount 1 1 0-1\nenemies 2 5\nrate 1 65535\nkey 0000000000000000000000000000000000000000000000000000000000000000\n";
    let up =
        "begin 70\nanswer 0 0 0\nanswer 0 1 0\nanswer 0 2 0\nbegin 71\nanswer 1 0 1\nanswer 1 1 1\n";
    expect_text(&rt, &REPLAY, &[BANK_UP, no_bands, up], 0, front);
}

/// A session for which eligibility was set aside in both bands is read again from its journal.
#[test]
fn a_journal_with_bands_is_read_again(rt: HostRuntime) {
    let again = "answer 2 1 0\nanswer 2 0 0\nexposure\n";
    let lines = "session 2 complete
refused other 1
exposure finished 3
item 0 shown 2 eligible 3
item 1 shown 3 eligible 3
item 2 shown 1 eligible 3
";
    expect_second_run(
        &rt,
        &[BANK_TWO, PLAN_TWO, SCRIPT_TWO],
        &[BANK_TWO, PLAN_TWO, again],
        lines,
    );
}

/// What an audit finds after `SCRIPT_UP`. Item 1 counts in both bands, and twice in all; session 0
/// did not visit the upper one.
const AUDIT_UP: [&str; 2] = [
    "entries 14 sessions 2 finished 2 proved 6 unproved 0 aside 0 nodes ",
    "
exposure finished 2
item 0 shown 0 eligible 2
item 1 shown 2 eligible 2
item 2 shown 1 eligible 2
item 3 shown 1 eligible 2
item 4 shown 1 eligible 2
item 5 shown 1 eligible 2
band 0 visited 2
band 0 item 0 shown 0 eligible 2
band 0 item 1 shown 1 eligible 1
band 0 item 2 shown 1 eligible 1
band 0 item 3 shown 1 eligible 1
band 0 item 4 shown 0 eligible 2
band 0 item 5 shown 1 eligible 2
band 1 visited 1
band 1 item 0 shown 0 eligible 1
band 1 item 1 shown 1 eligible 1
band 1 item 2 shown 0 eligible 1
band 1 item 3 shown 0 eligible 1
band 1 item 4 shown 1 eligible 1
band 1 item 5 shown 0 eligible 1
",
];

/// What an audit finds after `SCRIPT_TWO`.
const AUDIT_TWO: [&str; 2] = [
    "entries 17 sessions 3 finished 3 proved 6 unproved 0 aside 2 nodes ",
    "
exposure finished 3
item 0 shown 2 eligible 3
item 1 shown 3 eligible 3
item 2 shown 1 eligible 3
band 0 visited 3
band 0 item 0 shown 2 eligible 2
band 0 item 1 shown 1 eligible 3
band 0 item 2 shown 0 eligible 3
band 1 visited 3
band 1 item 0 shown 0 eligible 3
band 1 item 1 shown 2 eligible 2
band 1 item 2 shown 1 eligible 3
",
];

/// Under a plan of one band an audit prints no line of a band.
const AUDIT_ONE: [&str; 2] = [
    "entries 3 sessions 1 finished 1 proved 1 unproved 0 aside 0 nodes ",
    "
exposure finished 1
item 0 shown 0 eligible 1
item 1 shown 0 eligible 1
item 2 shown 1 eligible 1
item 3 shown 0 eligible 1
item 4 shown 0 eligible 1
item 5 shown 0 eligible 1
",
];

#[test]
fn exposure_by_band(rt: HostRuntime) {
    expect_audit(&rt, &[BANK_UP, PLAN_UP, SCRIPT_UP], &AUDIT_UP);
    expect_audit(&rt, &[BANK_TWO, PLAN_TWO, SCRIPT_TWO], &AUDIT_TWO);
    expect_audit(&rt, &[BANK_A, PLAN_A, "begin 70\nclose 0\n"], &AUDIT_ONE);
}

/// Points at which no band begins: one that is not of the grid of three points, the lowest one, two
/// that do not rise, and eight points.
const NO_BANDS: [&str; 5] = ["3", "0", "2 1", "1 1", "1 2 3 4 5 6 7 8"];

#[test]
fn bands_that_are_refused(rt: HostRuntime) {
    for points in &NO_BANDS {
        let plan = format!(in rt.alloc(); "length 3\nprior -10 0 -10\nbands {points}\n").expect(
            &rt, "a plan",
        );
        expect_text(&rt, &CHECK, &[BANK_A, &plan, ""], 4, "plan: bands\n");
    }
}

#[test]
fn bands_that_are_printed(rt: HostRuntime) {
    let text = "bank items 6 grid 3 quantities 0 stimuli 0
length 3
prior -10 0 -10
rate 1 1
key 0000000000000000000000000000000000000000000000000000000000000000
bands 1 2
budget 2001
base-budget 4095
sessions 1000
journal 67108864
";
    let plan = "bands 1 2\nlength 3\nprior -10 0 -10\n";
    expect_text(&rt, &CHECK, &[BANK_A, plan, ""], 0, text);
}
