//! Each fault of a draft with its value, also those that no plan text reaches. A draft with several
//! faults has the first in the order of `SpecFault`. What is expected was worked out by hand.

use crate::draft::{BOUNDS, PRIOR, RowOf, draft, mixed_bank, mixed_plan};
use crate::equal::expect_equal;
use bank_tables::{Bank, ItemSet};
use constraint_model::{Breach, Draft, Rate, Row, Spec, SpecFault, StimulusBound, front_fault};
use std::alloc::Global;
use std::process::Abort;
use trial_cases::{bank_a, draft_a, draft_of, set_of};

/// The fault of a draft's front, and its first fault.
type Faults = (Option<SpecFault>, Option<SpecFault>);

/// The front of the draft, and the draft, have these faults over the bank.
fn expect_faults_over<R: Abort>(rt: &R, alloc: Global, bank: &Bank, draft: Draft, faults: &Faults) {
    let front = front_fault(bank, &draft);
    expect_equal(rt, &(front, Spec::of(alloc, bank, draft).err()), faults);
}

/// The draft has these faults on the mixed bank.
fn expect_faults<R: Abort>(rt: &R, alloc: Global, draft: Draft, faults: &Faults) {
    let bank = mixed_bank(rt, alloc);
    expect_faults_over(rt, alloc, &bank, draft, faults);
}

/// A length, a prior, rows and bounds of stimuli; the faults of their draft.
type Case = (
    u32,
    &'static [i32],
    &'static [RowOf],
    &'static [StimulusBound],
    Faults,
);

/// Item 0 alone.
const ITEM_0: &[u16] = &[0];

/// Item 0, and one past the bank's items.
const PAST: &[u16] = &[0, 5];

/// A first row without a fault.
const FIRST: RowOf = RowOf::Count(ITEM_0, 0, 512);

/// Drafts over the mixed bank.
const CASES: [Case; 30] = [
    // Lengths and priors.
    (
        0,
        &[1],
        &[],
        BOUNDS,
        (Some(SpecFault::Length), Some(SpecFault::Length)),
    ),
    (
        6,
        &[1],
        &[],
        BOUNDS,
        (Some(SpecFault::Length), Some(SpecFault::Length)),
    ),
    (
        2,
        &[],
        &[],
        BOUNDS,
        (Some(SpecFault::BadPrior), Some(SpecFault::BadPrior)),
    ),
    (
        2,
        &[0, 0],
        &[],
        BOUNDS,
        (Some(SpecFault::BadPrior), Some(SpecFault::BadPrior)),
    ),
    (
        2,
        &[1],
        &[],
        BOUNDS,
        (Some(SpecFault::BadPrior), Some(SpecFault::BadPrior)),
    ),
    (
        2,
        &[-10_000_001],
        &[],
        BOUNDS,
        (Some(SpecFault::BadPrior), Some(SpecFault::BadPrior)),
    ),
    (5, &[-10_000_000], &[], BOUNDS, (None, None)),
    // Second rows.
    (
        2,
        PRIOR,
        &[FIRST, RowOf::Count(ITEM_0, 2, 1)],
        BOUNDS,
        (Some(SpecFault::RowBounds(1)), Some(SpecFault::RowBounds(1))),
    ),
    (
        2,
        PRIOR,
        &[FIRST, RowOf::Count(ITEM_0, 0, 513)],
        BOUNDS,
        (Some(SpecFault::RowBounds(1)), Some(SpecFault::RowBounds(1))),
    ),
    (
        2,
        PRIOR,
        &[FIRST, RowOf::Amount(0, ITEM_0, 2, 1)],
        BOUNDS,
        (Some(SpecFault::RowBounds(1)), Some(SpecFault::RowBounds(1))),
    ),
    (
        2,
        PRIOR,
        &[FIRST, RowOf::Amount(0, ITEM_0, 0, 33_553_921)],
        BOUNDS,
        (Some(SpecFault::RowBounds(1)), Some(SpecFault::RowBounds(1))),
    ),
    (
        2,
        PRIOR,
        &[FIRST, RowOf::Stimuli(2, 1)],
        BOUNDS,
        (Some(SpecFault::RowBounds(1)), Some(SpecFault::RowBounds(1))),
    ),
    (
        2,
        PRIOR,
        &[FIRST, RowOf::Stimuli(0, 65)],
        BOUNDS,
        (Some(SpecFault::RowBounds(1)), Some(SpecFault::RowBounds(1))),
    ),
    (
        2,
        PRIOR,
        &[FIRST, RowOf::Count(&[], 0, 1)],
        BOUNDS,
        (Some(SpecFault::EmptySet(1)), Some(SpecFault::EmptySet(1))),
    ),
    (
        2,
        PRIOR,
        &[FIRST, RowOf::Amount(1, &[], 0, 1)],
        BOUNDS,
        (Some(SpecFault::EmptySet(1)), Some(SpecFault::EmptySet(1))),
    ),
    (
        2,
        PRIOR,
        &[FIRST, RowOf::Enemies(&[])],
        BOUNDS,
        (Some(SpecFault::EmptySet(1)), Some(SpecFault::EmptySet(1))),
    ),
    (
        2,
        PRIOR,
        &[FIRST, RowOf::Count(PAST, 0, 1)],
        BOUNDS,
        (Some(SpecFault::BadItem(1)), Some(SpecFault::BadItem(1))),
    ),
    (
        2,
        PRIOR,
        &[FIRST, RowOf::Amount(1, PAST, 0, 1)],
        BOUNDS,
        (Some(SpecFault::BadItem(1)), Some(SpecFault::BadItem(1))),
    ),
    (
        2,
        PRIOR,
        &[FIRST, RowOf::Enemies(PAST)],
        BOUNDS,
        (Some(SpecFault::BadItem(1)), Some(SpecFault::BadItem(1))),
    ),
    (
        2,
        PRIOR,
        &[FIRST, RowOf::Amount(1, ITEM_0, 0, 1)],
        BOUNDS,
        (
            Some(SpecFault::BadQuantity(1)),
            Some(SpecFault::BadQuantity(1)),
        ),
    ),
    // The widest rows. Then two rows, each with a fault: the fault of the earlier row is the first,
    // whatever its kind.
    (
        2,
        PRIOR,
        &[
            RowOf::Amount(0, ITEM_0, 0, 33_553_920),
            RowOf::Stimuli(0, 64),
        ],
        BOUNDS,
        (None, None),
    ),
    (
        2,
        PRIOR,
        &[RowOf::Amount(1, ITEM_0, 0, 1), RowOf::Count(ITEM_0, 2, 1)],
        BOUNDS,
        (
            Some(SpecFault::BadQuantity(0)),
            Some(SpecFault::BadQuantity(0)),
        ),
    ),
    // Bounds of stimuli; the last are the widest.
    (2, PRIOR, &[], &[], (None, Some(SpecFault::BadStimulus(1)))),
    (
        2,
        PRIOR,
        &[],
        &[StimulusBound { low: 1, high: 2 }],
        (None, Some(SpecFault::BadStimulus(2))),
    ),
    (
        2,
        PRIOR,
        &[],
        &[StimulusBound { low: 0, high: 2 }],
        (None, Some(SpecFault::BadStimulus(2))),
    ),
    (
        2,
        PRIOR,
        &[],
        &[
            StimulusBound { low: 1, high: 2 },
            StimulusBound { low: 2, high: 2 },
            StimulusBound { low: 1, high: 1 },
        ],
        (None, Some(SpecFault::BadStimulus(3))),
    ),
    (
        2,
        PRIOR,
        &[],
        &[
            StimulusBound { low: 0, high: 2 },
            StimulusBound { low: 0, high: 2 },
        ],
        (None, Some(SpecFault::BadStimulus(1))),
    ),
    (
        2,
        PRIOR,
        &[],
        &[
            StimulusBound { low: 1, high: 2 },
            StimulusBound { low: 3, high: 2 },
        ],
        (None, Some(SpecFault::BadStimulus(2))),
    ),
    (
        2,
        PRIOR,
        &[],
        &[
            StimulusBound { low: 1, high: 513 },
            StimulusBound { low: 2, high: 2 },
        ],
        (None, Some(SpecFault::BadStimulus(1))),
    ),
    (
        2,
        PRIOR,
        &[],
        &[
            StimulusBound { low: 1, high: 512 },
            StimulusBound {
                low: 512,
                high: 512,
            },
        ],
        (None, None),
    ),
];

fn expect_its_faults<R: Abort>(
    rt: &R,
    alloc: Global,
    (length, prior, rows, bounds, faults): &Case,
) {
    let made = draft(rt, alloc, *length, prior, rows, bounds);
    expect_faults(rt, alloc, made, faults);
}

#[test]
fn lengths_priors_rows_and_bounds(rt: HostRuntime) {
    for case in &CASES {
        expect_its_faults(&rt, rt.alloc(), case);
    }
}

/// A draft that has one row so many times has these faults.
fn expect_faults_of_so_many<R: Abort>(rt: &R, alloc: Global, count: usize, faults: &Faults) {
    let row = Row::Enemies {
        set: set_of(ITEM_0),
    };
    let rows = vec![in alloc; row; count].expect(rt, "rows");
    let draft = draft_of(alloc, 2, PRIOR, &rows, BOUNDS).expect(rt, "a draft");
    expect_faults(rt, alloc, draft, faults);
}

#[test]
fn numbers_of_rows(rt: HostRuntime) {
    expect_faults_of_so_many(&rt, rt.alloc(), 128, &(None, None));
    let fault = Some(SpecFault::TooManyRows);
    expect_faults_of_so_many(&rt, rt.alloc(), 129, &(fault, fault));
}

/// The numbers of a draft: the rate, the budget of a step and of the base form, and the limits of
/// sessions and of the journal.
type Numbers = ((u32, u32), (u32, u32), (u32, u64));

/// Numbers, each with the fault of the mixed plan that has them.
///
/// The rate is tested first, then the budgets, then the limits. Each wrong rate here has a wrong
/// budget too, and each pair of wrong budgets a wrong limit.
const NUMBERS: [(Numbers, Option<SpecFault>); 14] = [
    (
        ((0, 1), (4, 4_095), (1_000, 67_108_864)),
        Some(SpecFault::BadRate),
    ),
    (
        ((2, 1), (4, 4_095), (1_000, 67_108_864)),
        Some(SpecFault::BadRate),
    ),
    (
        ((1, 65_536), (4, 4_095), (1_000, 67_108_864)),
        Some(SpecFault::BadRate),
    ),
    (
        ((1, 1), (0, 1), (0, 67_108_864)),
        Some(SpecFault::BadBudget),
    ),
    (
        ((1, 1), (4, 1), (0, 67_108_864)),
        Some(SpecFault::BadBudget),
    ),
    (
        ((1, 1), (4_097, 1), (0, 67_108_864)),
        Some(SpecFault::BadBudget),
    ),
    (
        ((1, 1), (1, 0), (0, 67_108_864)),
        Some(SpecFault::BadBudget),
    ),
    (
        ((1, 1), (1, 2), (0, 67_108_864)),
        Some(SpecFault::BadBudget),
    ),
    (
        ((1, 1), (1, 4_097), (0, 67_108_864)),
        Some(SpecFault::BadBudget),
    ),
    (((1, 1), (2_001, 4_095), (0, 64)), Some(SpecFault::BadLimit)),
    (
        ((1, 1), (2_001, 4_095), (65_537, 64)),
        Some(SpecFault::BadLimit),
    ),
    (((1, 1), (2_001, 4_095), (1, 63)), Some(SpecFault::BadLimit)),
    (
        ((1, 1), (2_001, 4_095), (1, 536_870_913)),
        Some(SpecFault::BadLimit),
    ),
    // The widest rate and limits.
    (((65_535, 65_535), (1, 4_095), (65_536, 536_870_912)), None),
];

/// The draft of the mixed plan with these numbers and this base.
fn with_numbers<R: Abort>(
    rt: &R,
    alloc: Global,
    ((num, den), (budget, base_budget), (sessions, journal)): Numbers,
    base: Option<ItemSet>,
) -> Draft {
    Draft {
        rate: Rate { num, den },
        budget,
        base_budget,
        sessions,
        journal,
        base,
        ..mixed_plan(rt, alloc)
    }
}

/// The mixed plan with these numbers has this fault.
///
/// With a base that is no form it has the same fault, as the base is tested last. If the numbers
/// have no fault, it has that of the base.
fn expect_fault<R: Abort>(rt: &R, alloc: Global, numbers: Numbers, fault: Option<SpecFault>) {
    expect_faults(
        rt,
        alloc,
        with_numbers(rt, alloc, numbers, None),
        &(None, fault),
    );
    let empty = with_numbers(rt, alloc, numbers, Some(ItemSet::empty()));
    let fault = fault.unwrap_or(SpecFault::BadBase(Breach::Length(0)));
    expect_faults(rt, alloc, empty, &(None, Some(fault)));
}

#[test]
fn rates_budgets_and_limits(rt: HostRuntime) {
    for (numbers, fault) in &NUMBERS {
        expect_fault(&rt, rt.alloc(), *numbers, *fault);
    }
}

/// A set of items, and its breach as the base of a plan.
type Base = (&'static [u16], Option<Breach>);

/// Bases of plan A.
const BASES_OF_A: [Base; 5] = [
    (&[1, 2, 3], None),
    (&[1, 2], Some(Breach::Length(2))),
    (&[1, 2, 6], Some(Breach::Length(3))),
    (&[0, 1, 2], Some(Breach::Row(0, 2))),
    (&[1, 2, 5], Some(Breach::Row(1, 2))),
];

/// Bases of the mixed plan.
const MIXED_BASES: [Base; 3] = [
    (&[2, 3], None),
    (&[0, 4], None),
    (&[0, 2], Some(Breach::Stimulus(2, 1))),
];

/// The draft with these items as its base has this breach.
fn expect_breach<R: Abort>(
    rt: &R,
    alloc: Global,
    bank: &Bank,
    draft: Draft,
    (items, breach): &Base,
) {
    let mut draft = draft;
    draft.base = Some(set_of(items));
    expect_faults_over(
        rt,
        alloc,
        bank,
        draft,
        &(None, breach.map(SpecFault::BadBase)),
    );
}

fn expect_breach_of_a<R: Abort>(rt: &R, alloc: Global, base: &Base) {
    let bank = bank_a(alloc).expect(rt, "a bank");
    expect_breach(rt, alloc, &bank, draft_a(alloc).expect(rt, "a draft"), base);
}

#[test]
fn bases_of_bank_a(rt: HostRuntime) {
    for base in &BASES_OF_A {
        expect_breach_of_a(&rt, rt.alloc(), base);
    }
}

fn expect_mixed_breach<R: Abort>(rt: &R, alloc: Global, base: &Base) {
    let bank = mixed_bank(rt, alloc);
    expect_breach(rt, alloc, &bank, mixed_plan(rt, alloc), base);
}

#[test]
fn bases_of_the_mixed_bank(rt: HostRuntime) {
    for base in &MIXED_BASES {
        expect_mixed_breach(&rt, rt.alloc(), base);
    }
}
