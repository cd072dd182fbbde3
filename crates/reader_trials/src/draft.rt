//! Drafts of plans over a small bank, and a plan that is taken.

use crate::equal::expect_equal;
use bank_tables::{Bank, ItemRow};
use constraint_model::{Draft, Rate, Row, Spec, StimulusBound};
use std::alloc::Global;
use std::process::Abort;
use trial_cases::{draft_of, item, rows_of, set_of};

/// A row of a plan, with the items of its set.
#[derive(Clone, Copy)]
pub(crate) enum RowOf {
    /// So many items at least and at most.
    Count(&'static [u16], u32, u32),
    /// So much of a quantity at least and at most.
    Amount(u8, &'static [u16], u32, u32),
    /// At most one of the items.
    Enemies(&'static [u16]),
    /// So many stimuli at least and at most.
    Stimuli(u32, u32),
}

/// Items 0 and 1 of stimulus 1, items 2 and 3 of stimulus 2, item 4 of none; each has 10 of the
/// one quantity.
fn mixed_items<R: Abort>(rt: &R, alloc: Global) -> Vec<ItemRow> {
    let mut items = Vec::new(alloc);
    for stimulus in &[1, 1, 2, 2, 0] {
        let row = item(alloc, *stimulus, &[10], &[5], &[-1, -1]).expect(rt, "an item");
        items.push(row).expect(rt, "items");
    }
    items
}

/// The mixed bank.
pub(crate) fn mixed_bank<R: Abort>(rt: &R, alloc: Global) -> Bank {
    Bank::of(alloc, rows_of(1, 1, mixed_items(rt, alloc))).expect(rt, "a bank")
}

/// The bounds of the mixed plan: of stimulus 2 both items or none.
pub(crate) const BOUNDS: &[StimulusBound] = &[
    StimulusBound { low: 1, high: 2 },
    StimulusBound { low: 2, high: 2 },
];

/// The prior of the mixed plan.
pub(crate) const PRIOR: &[i32] = &[0];

/// The rows of the mixed plan: at most 20 of the quantity, and at most two stimuli.
const MIXED: &[RowOf] = &[
    RowOf::Amount(0, &[0, 1, 2, 3, 4], 0, 20),
    RowOf::Stimuli(0, 2),
];

/// The row that is meant.
fn row_of(row: &RowOf) -> Row {
    match *row {
        RowOf::Count(items, low, high) => Row::Count {
            set: set_of(items),
            low,
            high,
        },
        RowOf::Amount(which, items, low, high) => Row::Quantity {
            which,
            set: set_of(items),
            low,
            high,
        },
        RowOf::Enemies(items) => Row::Enemies { set: set_of(items) },
        RowOf::Stimuli(low, high) => Row::Stimuli { low, high },
    }
}

fn rows_from<R: Abort>(rt: &R, alloc: Global, given: &[RowOf]) -> Vec<Row> {
    let mut rows = Vec::new(alloc);
    for row in given {
        rows.push(row_of(row)).expect(rt, "rows");
    }
    rows
}

/// The draft with this length, prior, rows and bounds.
pub(crate) fn draft<R: Abort>(
    rt: &R,
    alloc: Global,
    length: u32,
    prior: &[i32],
    given: &[RowOf],
    bounds: &[StimulusBound],
) -> Draft {
    let rows = rows_from(rt, alloc, given);
    draft_of(alloc, length, prior, &rows, bounds).expect(rt, "a draft")
}

/// The draft of the mixed plan: two items of the mixed bank.
pub(crate) fn mixed_plan<R: Abort>(rt: &R, alloc: Global) -> Draft {
    draft(rt, alloc, 2, PRIOR, MIXED, BOUNDS)
}

/// The plan has the length, the prior, as many rows and the bounds of the mixed plan.
fn expect_problem<R: Abort>(rt: &R, spec: &Spec) {
    expect_equal(rt, &spec.length(), &2);
    expect_equal(rt, &spec.prior(), &[0].as_slice());
    expect_equal(rt, &spec.rows().len(), &2);
    expect_equal(rt, &spec.bounds(), &BOUNDS);
}

/// The plan has the other numbers of the mixed plan, and no base form.
fn expect_numbers<R: Abort>(rt: &R, spec: &Spec) {
    expect_equal(rt, &spec.rate(), &Rate { num: 1, den: 1 });
    expect_equal(rt, spec.key(), &[0; 32]);
    expect_equal(rt, &(spec.budget(), spec.base_budget()), &(2_001, 4_095));
    expect_equal(rt, &(spec.sessions(), spec.journal()), &(1_000, 67_108_864));
    expect_equal(rt, &spec.base(), &None);
}

/// The mixed plan is taken over the bank, and has the numbers of its draft.
fn expect_taken<R: Abort>(rt: &R, alloc: Global, bank: &Bank, draft: Draft) {
    let spec = Spec::of(alloc, bank, draft).expect(rt, "a plan");
    expect_problem(rt, &spec);
    expect_numbers(rt, &spec);
}

#[test]
fn a_plan_is_taken(rt: HostRuntime) {
    let bank = mixed_bank(&rt, rt.alloc());
    expect_taken(&rt, rt.alloc(), &bank, mixed_plan(&rt, rt.alloc()));
}
