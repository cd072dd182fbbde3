//! Sessions with a list of items that the examinee must not get, on bank A. What is expected was
//! worked out by hand.

use crate::outcome::{REPLAY, expect_second_run, expect_text};
use trial_cases::{BANK_A, PLAN_A};

/// A session without a list, one without item 2, and the refusals of a list but `none-found`.
const SCRIPT: &str = "begin 70
begin 71 without 2
begin 71 without 1
begin 71
begin 72 without 0-1
begin 72 without 3-5
begin 72 without 6
close 1
exposure
";

/// Without item 2 the best form is {1, 3, 5}, and item 1 is its best at the start. Each form has
/// one of the items 0 and 1, and one of the items 3, 4 and 5. Item 2 was not eligible for session
/// 1, which is the one that is finished.
const LINES: &str = "session 0 step 0 item 2 proved
session 1 step 0 item 1 proved
refused other-list 1
session 1 step 0 item 1 proved
refused no-form
refused no-form
refused no-item 6
session 1 closed
exposure finished 1
item 0 shown 0 eligible 1
item 1 shown 1 eligible 1
item 2 shown 0 eligible 0
item 3 shown 0 eligible 1
item 4 shown 0 eligible 1
item 5 shown 0 eligible 1
";

#[test]
fn a_list_is_kept_from_its_examinee(rt: HostRuntime) {
    expect_text(&rt, &REPLAY, &[BANK_A, PLAN_A, SCRIPT], 0, LINES);
}

/// A second run over the journal knows the lists. Session 0 has none, so any list is another one.
#[test]
fn a_second_run_knows_the_list(rt: HostRuntime) {
    let second =
        "begin 71 without 2\nbegin 71 without 1-2\nbegin 71\nbegin 70 without 2\nbegin 72 without 0-1\n";
    let lines =
        "session 1 closed\nrefused other-list 1\nsession 1 closed\nrefused other-list 0\nrefused no-form\n";
    let texts = [BANK_A, PLAN_A, SCRIPT];
    expect_second_run(&rt, &texts, &[BANK_A, PLAN_A, second], lines);
}

/// Plan A with at most two sessions.
const PLAN_TWO: &str = "length 3\nprior -10 0 -10\ncount 1 1 0-1\nenemies 2 5\nsessions 2\n";

/// The number of sessions is tested before a form without the items is looked for.
#[test]
fn a_session_more_than_the_plan_allows(rt: HostRuntime) {
    let script = "begin 70\nbegin 71 without 2\nbegin 72 without 0-1\nbegin 71\n";
    let lines =
        "session 0 step 0 item 2 proved\nsession 1 step 0 item 1 proved\nlimit sessions 2 of 2\n";
    expect_text(&rt, &REPLAY, &[BANK_A, PLAN_TWO, script], 13, lines);
}
