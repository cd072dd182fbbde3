//! Sessions that are served from a script.

use crate::outcome::{REPLAY, expect_second_run, expect_text};
use crate::texts::{BANK_E, BANK_S, BANK_TIE, LINES_A, SCRIPT_A};
use trial_cases::{BANK_A, PLAN_A, PLAN_E};

/// The first item of bank E is served, and its form is not proved best.
const UNPROVED: &str = "session 0 step 0 item 0 unproved\n";

/// Banks, plans and scripts, each with the lines that are printed.
const SESSIONS: [([&str; 3], &str); 8] = [
    ([BANK_A, PLAN_A, SCRIPT_A], LINES_A),
    (
        [
            BANK_A,
            "length 3\nprior -10 0 -10\ncount 1 1 0-1\ncount 0 1 2 5\n",
            SCRIPT_A,
        ],
        LINES_A,
    ),
    // A passage that is left is not entered again.
    (
        [
            BANK_S,
            "length 4\nprior 0 -1\nstimulus 1 2 3\n",
            "begin 1\nanswer 0 0 0\nanswer 0 1 0\nanswer 0 2 1\n",
        ],
        "session 0 step 0 item 0 proved
session 0 step 1 item 1 proved
session 0 step 2 item 3 proved
session 0 step 3 item 4 proved
",
    ),
    // Of equal items the lowest is served.
    (
        [BANK_TIE, "length 2\nprior 0\ncount 1 1 0\n", "begin 1\n"],
        "session 0 step 0 item 0 proved\n",
    ),
    // One node isn't enough to prove the form {0, 3}, which no exchange of one item betters; {2, 4}
    // is such a form's worse.
    ([BANK_E, PLAN_E, "begin 1\n"], UNPROVED),
    (
        [
            BANK_E,
            "length 2\nprior 0\nbudget 1\nenemies 0 1\nenemies 1 2\nenemies 0 2\nbase 2 4\n",
            "begin 1\n",
        ],
        UNPROVED,
    ),
    // At the rate 1 in 65,535, and with the key of zeros, the counts of finished sessions draw
    // which items the next one may be shown; a session that no form is left for is served with all
    // of them.
    (
        [
            BANK_A,
            "length 3\nprior -10 0 -10\ncount 1 1 0-1\nenemies 2 5\nrate 1 65535\nkey 0000000000000000000000000000000000000000000000000000000000000000\n",
            "begin 70\nanswer 0 0 1\nanswer 0 1 0\nanswer 0 2 1\nbegin 71\nanswer 1 0 0\nanswer 1 1 0\nanswer 1 2 0\nbegin 72\nclose 2\nexposure\n",
        ],
        "session 0 step 0 item 2 proved
session 0 step 1 item 4 proved
session 0 step 2 item 1 proved
session 0 complete
session 1 step 0 item 5 proved
session 1 step 1 item 3 proved
session 1 step 2 item 0 proved
session 1 complete
session 2 step 0 item 2 proved
session 2 closed
exposure finished 3
item 0 shown 1 eligible 3
item 1 shown 1 eligible 2
item 2 shown 2 eligible 2
item 3 shown 1 eligible 3
item 4 shown 1 eligible 2
item 5 shown 1 eligible 3
",
    ),
    // An item that was shown and not answered counts.
    (
        [BANK_A, PLAN_A, "begin 1\nbegin 2\nclose 1\nexposure\n"],
        "session 0 step 0 item 2 proved
session 1 step 0 item 2 proved
session 1 closed
exposure finished 1
item 0 shown 0 eligible 1
item 1 shown 0 eligible 1
item 2 shown 1 eligible 1
item 3 shown 0 eligible 1
item 4 shown 0 eligible 1
item 5 shown 0 eligible 1
",
    ),
];

#[test]
fn sessions(rt: HostRuntime) {
    for (texts, lines) in &SESSIONS {
        expect_text(&rt, &REPLAY, texts, 0, lines);
    }
}

const TWO_BEGUN: &str = "begin 1\nbegin 2\nanswer 0 0 1\nclose 1\n";

/// A second run goes on from the journal of the first. A refused request prints its refusal, and
/// the run goes on.
#[test]
fn a_second_run_goes_on(rt: HostRuntime) {
    let second =
        "answer 0 0 1\nanswer 0 0 0\nanswer 0 2 1\nanswer 0 1 2\nbegin 1\nanswer 9 0 0\nanswer 1 0 0\nclose 1\n";
    let lines = "session 0 step 1 item 4 proved
refused other 1
refused wrong-step 1
refused bad-response 2
session 0 step 1 item 4 proved
refused no-session 2
refused is-closed closed
refused is-closed closed
";
    expect_second_run(
        &rt,
        &[BANK_A, PLAN_A, TWO_BEGUN],
        &[BANK_A, PLAN_A, second],
        lines,
    );
}
