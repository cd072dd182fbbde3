//! The twenty steps of bank L: 120 items in twelve categories of ten, of which the first six have a
//! passage of two items, and a plan with 18 rows. In each category the items before another have
//! more information at each point, so the form is always that of the first items of each category.
//! A search that never improves its multipliers does not end in time.

use crate::outcome::{REPLAY, expect_text};
use std::alloc::Global;
use std::process::Abort;
use trial_cases::{PLAN_L, bank_text, rows_l};

/// Twenty answers of response 0.
const SCRIPT: &str = "begin 1
answer 0 0 0
answer 0 1 0
answer 0 2 0
answer 0 3 0
answer 0 4 0
answer 0 5 0
answer 0 6 0
answer 0 7 0
answer 0 8 0
answer 0 9 0
answer 0 10 0
answer 0 11 0
answer 0 12 0
answer 0 13 0
answer 0 14 0
answer 0 15 0
answer 0 16 0
answer 0 17 0
answer 0 18 0
answer 0 19 0
";

const LINES: &str = "session 0 step 0 item 0 proved
session 0 step 1 item 1 proved
session 0 step 2 item 10 proved
session 0 step 3 item 11 proved
session 0 step 4 item 20 proved
session 0 step 5 item 21 proved
session 0 step 6 item 30 proved
session 0 step 7 item 31 proved
session 0 step 8 item 40 proved
session 0 step 9 item 41 proved
session 0 step 10 item 50 proved
session 0 step 11 item 51 proved
session 0 step 12 item 60 proved
session 0 step 13 item 61 proved
session 0 step 14 item 70 proved
session 0 step 15 item 71 proved
session 0 step 16 item 80 proved
session 0 step 17 item 90 proved
session 0 step 18 item 100 proved
session 0 step 19 item 110 proved
session 0 complete
";

/// The text of bank L.
fn text_l<R: Abort>(rt: &R, alloc: Global) -> String {
    let rows = rows_l(alloc).expect(rt, "rows");
    bank_text(alloc, &rows).expect(rt, "a text")
}

#[test]
fn bank_l_is_served_to_its_end(rt: HostRuntime) {
    let bank = text_l(&rt, rt.alloc());
    expect_text(&rt, &REPLAY, &[bank.as_str(), PLAN_L, SCRIPT], 0, LINES);
}
