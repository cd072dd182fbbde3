//! What is found of sets of items on two small banks. What is expected was worked out by hand.

ghost use Rattle.form_model.specs.Validity.{IsPlanFor};

use crate::draft::{BOUNDS, PRIOR, RowOf, draft, mixed_bank};
use crate::equal::expect_equal;
use bank_tables::{Bank, ItemSet};
use constraint_model::{Breach, Draft, Problem, Spec, meets, objective};
use std::alloc::Global;
use std::process::Abort;
use trial_cases::{bank_a, draft_a, set_of};

/// What is found of a set of items: the ability point of the whole problem, and the set's breach
/// and objective.
type Found = (u8, Option<Breach>, u64);

/// A set of items, and what is found of it.
type Judged = (&'static [u16], Found);

/// What is found of the set. It owns nothing, since a function that owns a bank is dear to prove.
fn found_on(bank: &Bank, spec: &Spec, set: &ItemSet) -> Found
    requires { IsPlanFor bank.now spec.now }
{
    let problem = Problem::whole(bank, spec);
    (
        problem.theta,
        meets(&problem, set),
        objective(&problem, set),
    )
}

/// This is found of the set in the whole problem of a bank and the plan of a draft.
fn expect_found<R: Abort>(
    rt: &R,
    alloc: Global,
    bank: &Bank,
    draft: Draft,
    (items, found): &Judged,
) {
    match Spec::of(alloc, bank, draft) {
        Ok(spec) => expect_equal(rt, &found_on(bank, &spec, &set_of(items)), found),
        Err(_) => panic!(rt; "no plan"),
    }
}

/// Sets of bank A.
const SETS_OF_A: [Judged; 2] = [
    (&[1, 2, 3], (1, None, 23)),
    (&[1, 2, 5], (1, Some(Breach::Row(1, 2)), 24)),
];

fn expect_found_on_a<R: Abort>(rt: &R, alloc: Global, set: &Judged) {
    let bank = bank_a(alloc).expect(rt, "a bank");
    expect_found(rt, alloc, &bank, draft_a(alloc).expect(rt, "a draft"), set);
}

#[test]
fn sets_of_bank_a(rt: HostRuntime) {
    for set in &SETS_OF_A {
        expect_found_on_a(&rt, rt.alloc(), set);
    }
}

/// The rows of the narrow plan: 10 of the quantity of items 0 and 1, and both stimuli.
const NARROW: &[RowOf] = &[RowOf::Amount(0, &[0, 1], 10, 10), RowOf::Stimuli(2, 2)];

/// Sets of the mixed bank, where each item has the information 5.
const MIXED_SETS: [Judged; 5] = [
    (&[0, 2, 3], (0, None, 15)),
    (&[2, 3, 4], (0, Some(Breach::Row(0, 0)), 15)),
    (&[0, 1, 2], (0, Some(Breach::Row(0, 20)), 15)),
    (&[0, 2, 4], (0, Some(Breach::Stimulus(2, 1)), 15)),
    (&[], (0, Some(Breach::Length(0)), 0)),
];

/// This is found of the set under the narrow plan, which is for three items of the mixed bank.
fn expect_found_narrow<R: Abort>(rt: &R, alloc: Global, set: &Judged) {
    let bank = mixed_bank(rt, alloc);
    let narrow = draft(rt, alloc, 3, PRIOR, NARROW, BOUNDS);
    expect_found(rt, alloc, &bank, narrow, set);
}

#[test]
fn sets_of_the_mixed_bank(rt: HostRuntime) {
    for set in &MIXED_SETS {
        expect_found_narrow(&rt, rt.alloc(), set);
    }
}
