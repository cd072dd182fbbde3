//! Answers and closings that name a booking, on bank A. What is expected was worked out by hand.

use crate::outcome::{REPLAY, expect_second_run, expect_text};
use trial_cases::{BANK_A, PLAN_A};

/// Two sessions, of the bookings 70 and 71. Booking 72 has none.
const SCRIPT: &str = "answer 0 0 1 for 70
begin 70
begin 71
answer 0 0 1 for 71
answer 0 9 9 for 72
answer 0 0 1 for 70
answer 0 0 0 for 71
answer 0 0 1 for 70
answer 2 0 1 for 71
close 0 for 71
close 1 for 71
close 1 for 70
close 1 for 71
look 0
";

/// Item 4 follows a right answer to item 2. A booking that is not the session's is refused before
/// the step, the recorded response and the end of the session are looked at, and after the number
/// of the session.
const LINES: &str = "refused no-session 0
session 0 step 0 item 2 proved
session 1 step 0 item 2 proved
refused other-booking
refused other-booking
session 0 step 1 item 4 proved
refused other-booking
session 0 step 1 item 4 proved
refused no-session 2
refused other-booking
session 1 closed
refused other-booking
refused is-closed closed
session 0 step 1 item 4 proved
";

#[test]
fn another_booking_changes_nothing(rt: HostRuntime) {
    expect_text(&rt, &REPLAY, &[BANK_A, PLAN_A, SCRIPT], 0, LINES);
}

/// A second run over the journal knows whose the sessions are. A line that names no booking is as
/// before.
#[test]
fn a_second_run_knows_the_booking(rt: HostRuntime) {
    let second =
        "answer 0 1 0 for 71\nclose 0 for 71\nanswer 0 1 0 for 70\nanswer 0 1 0\nclose 0\nclose 0 for 71\n";
    let lines =
        "refused other-booking\nrefused other-booking\nsession 0 step 2 item 1 proved\nsession 0 step 2 item 1 proved\nsession 0 closed\nrefused other-booking\n";
    let texts = [BANK_A, PLAN_A, SCRIPT];
    expect_second_run(&rt, &texts, &[BANK_A, PLAN_A, second], lines);
}
