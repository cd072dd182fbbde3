//! What is read and printed of the worked plans. What is expected is from the rules of the plan
//! text, or was worked out by hand.

use crate::equal::expect_equal;
use crate::source::{bytes_of, source_of};
use bank_tables::Bank;
use constraint_model::Spec;
use spec_reader::{PlanFault, print_plan, read_plan};
use std::alloc::Global;
use std::process::Abort;
use trial_cases::{PLAN_A, PLAN_E, PLAN_L, PLAN_Q, PLAN_S, bank_a, bank_e, bank_l, bank_q, bank_s};

/// A worked bank.
#[derive(Clone, Copy)]
pub(crate) enum Worked {
    A,
    E,
    L,
    Q,
    S,
}

/// The bank.
pub(crate) fn bank_of<R: Abort>(rt: &R, alloc: Global, bank: Worked) -> Bank {
    let made = match bank {
        Worked::A => bank_a(alloc),
        Worked::E => bank_e(alloc),
        Worked::L => bank_l(alloc),
        Worked::Q => bank_q(alloc),
        Worked::S => bank_s(alloc),
    };
    made.expect(rt, "a bank")
}

/// The plan that these bytes are read to, or the fault. The calls of their source that have these
/// numbers fail.
pub(crate) fn read<R: Abort>(
    rt: &R,
    alloc: Global,
    bank: &Bank,
    bytes: Vec<u8>,
    fails: &[u64],
) -> Result<Spec, PlanFault> {
    read_plan(alloc, bank, &mut source_of(rt, alloc, bytes, fails))
}

/// What the plan of these bytes is printed as.
fn printed<R: Abort>(rt: &R, alloc: Global, bank: &Bank, bytes: Vec<u8>) -> Vec<u8> {
    let spec = read(rt, alloc, bank, bytes, &[]).expect(rt, "a plan");
    print_plan(alloc, &spec).expect(rt, "a text")
}

/// What the plan of a text over bank A is printed as.
pub(crate) fn printed_over_a<R: Abort>(rt: &R, alloc: Global, text: &str) -> Vec<u8> {
    let bank = bank_of(rt, alloc, Worked::A);
    printed(rt, alloc, &bank, bytes_of(rt, alloc, text))
}

/// Plan A as it is printed, with a line for each default.
const PRINTED_A: &str =
    "length 3\nprior -10 0 -10\nrate 1 1\nkey 0000000000000000000000000000000000000000000000000000000000000000\nbudget 2001\nbase-budget 4095\nsessions 1000\njournal 67108864\ncount 1 1 0-1\nenemies 2 5\n";

#[test]
fn a_plan_is_printed_with_its_defaults(rt: HostRuntime) {
    let found = printed_over_a(&rt, rt.alloc(), PLAN_A);
    expect_equal(&rt, &found.as_slice(), &PRINTED_A.as_bytes());
}

#[test]
fn the_runs_of_a_set_are_joined(rt: HostRuntime) {
    let text = "# joined\n\nlength 3\nprior 0 0 0\ncount 0 3 0 1-2 4 5\nbase 0-1 3";
    let found = printed_over_a(&rt, rt.alloc(), text);
    let end = b"journal 67108864\ncount 0 3 0-2 4-5\nbase 0-1 3\n".as_slice();
    assert!(rt; found.as_slice().ends_with(end));
}

/// The worked plans, and one with two bands.
const PLANS: [(Worked, &str); 6] = [
    (Worked::A, PLAN_A),
    (Worked::S, PLAN_S),
    (Worked::E, PLAN_E),
    (Worked::Q, PLAN_Q),
    (Worked::L, PLAN_L),
    (Worked::A, "length 3\nprior 0 0 0\nbands 2\n"),
];

/// The text that a plan is printed as is longer, and reads to a plan that is printed the same.
fn expect_printed_again<R: Abort>(rt: &R, alloc: Global, bank: &Bank, text: &str) {
    let first = printed(rt, alloc, bank, bytes_of(rt, alloc, text));
    assert!(rt; text.len() < first.len());
    let copy = first.to_vec(alloc).expect(rt, "a copy");
    expect_equal(rt, &printed(rt, alloc, bank, copy), &first);
}

/// The same over a worked bank.
fn expect_printed_twice<R: Abort>(rt: &R, alloc: Global, over: Worked, text: &str) {
    let bank = bank_of(rt, alloc, over);
    expect_printed_again(rt, alloc, &bank, text);
}

#[test]
fn each_worked_plan_is_printed_the_same_twice(rt: HostRuntime) {
    for (over, text) in &PLANS {
        expect_printed_twice(&rt, rt.alloc(), *over, text);
    }
}
