//! Form series: what `series` prints, with which status.

use crate::equal::expect_equal;
use crate::outcome::{CALM, expect_front, expect_text, outcome};
use crate::texts::{BANK_E, BANK_ODD};
use std::sync::Wait;
use std::thread::Threads;
use trial_cases::BANK_A;

/// Two forms, by the middle one of three grid points.
const OF_TWO: [&str; 5] = ["series", "bank", "plan", "2", "0,1,0"];

/// One form, by the one grid point.
const OF_ONE: [&str; 5] = ["series", "bank", "plan", "1", "1"];

const PLAN_OF_TWO: &str = "length 2\nprior -10 0 -10\n";

const PLAN_OF_FOUR: &str = "length 4\nprior -10 0 -10\n";

/// The text after its first line.
fn after_first_line(text: &[u8]) -> &[u8] {
    match text.iter().position(|byte| *byte == b'\n') {
        Some(at) => text.split_at(at).1,
        None => text,
    }
}

/// At the middle point the items of bank A have the information 5, 8, 9, 6, 4 and 7. Two pairs
/// apart have at least 15 only as 8 and 7, 9 and 6.
#[test]
fn the_weaker_form_is_as_strong_as_can_be(rt: HostRuntime) {
    let ran = outcome(&rt, &OF_TWO, &[BANK_A, PLAN_OF_TWO, ""], &CALM);
    assert!(rt; ran.text.starts_with(b"series 2 value 15 proved nodes "));
    assert!(rt; after_first_line(&ran.text).starts_with(b"\nform 1 5\nform 2 3\ntree "));
    expect_equal(&rt, &ran.status, &0);
}

/// Six items are too few for two forms of four.
#[test]
fn no_two_forms(rt: HostRuntime) {
    expect_front(&rt, &OF_TWO, &[BANK_A, PLAN_OF_FOUR, ""], 17, "no series 0");
}

/// Weights of two points for a grid of three, and weights that are all 0.
const NO_WEIGHTS: [&str; 2] = ["0,1", "0,0,0"];

#[test]
fn weights_that_are_not_the_grids(rt: HostRuntime) {
    for word in &NO_WEIGHTS {
        let words = ["series", "bank", "plan", "2", *word];
        expect_text(
            &rt,
            &words,
            &[BANK_A, PLAN_OF_TWO, ""],
            16,
            "series: weights\n",
        );
    }
}

/// Of the items 0, 1 and 2 one may be in a form, so the best form has 10 and 2. Two halves and a
/// whole one would have more.
#[test]
fn a_series_that_is_not_proved_best(rt: HostRuntime) {
    let plan = "length 2\nprior 0\nbase-budget 1\nenemies 0 1\nenemies 1 2\nenemies 0 2\n";
    let ran = outcome(&rt, &OF_ONE, &[BANK_E, plan, ""], &CALM);
    assert!(rt;
        ran.text
            .starts_with(b"series 1 value 12 unproved nodes 1\nform 0 3\ntree ")
    );
    expect_equal(&rt, &ran.status, &0);
}

/// No two items have an odd sum, and one node shows nothing.
#[test]
fn a_budget_that_is_spent(rt: HostRuntime) {
    let plan = "length 2\nprior 0\nbase-budget 1\nquantity 0 3 3 0-3\n";
    expect_text(
        &rt,
        &OF_ONE,
        &[BANK_ODD, plan, ""],
        18,
        "no series in 1 nodes 0006\n",
    );
}
