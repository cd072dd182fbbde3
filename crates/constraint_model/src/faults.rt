//! The tests that a draft must pass to be a plan for an item bank.

ghost use Rattle.std.specs.Prelude.{◌≡◌, ◌≤◌, length, None, MatchOption};
ghost use Rattle.exam_text.specs.First.{◌orelse◌};
ghost use Rattle.std.specs.List.{list_all};
ghost use Rattle.bank_tables.specs.Faults.{is_loglik};
ghost use Rattle.form_model.specs.Forms.{stimuli_of};
ghost use Rattle.form_model.specs.Validity.{IsPlanFor};
ghost use Rattle.constraint_model.specs.Countable.{IsCountable};
ghost use Rattle.constraint_model.specs.Faults.{is_empty, has_unknown, range_fault, set_fault, quantity_fault, row_fault, rows_fault, is_prior, front_fault, bound_fault, bounds_fault, is_rate, rise, are_bands, is_budget, limits_fault, IsBaseFault, IsSpecFault};

use crate::breaches::plan_breach;
use crate::spec_fault::SpecFault;
use bank_tables::limits::{ITEMS, JOURNAL, NODES, ROWS, SESSIONS, STIMULI};
use bank_tables::{Bank, ItemSet};
use form_model::{Breach, Draft, Rate, Row, StimulusBound};

fn is_empty(set: &ItemSet) -> bool
    ensures { result ≡ is_empty set.now }
{
    set.first().is_none()
}

fn has_unknown(bank: &Bank, set: &ItemSet) -> bool
    ensures { result ≡ has_unknown bank.now set.now }
{
    !set.all_below(bank.items())
}

fn range_fault(row: u8, low: u32, high: u32, most: u32) -> Option<SpecFault>
    ensures { result ≡ range_fault row low high most }
{
    if low > high || high > most {
        return Some(SpecFault::RowBounds(row));
    }
    None
}

fn set_fault(bank: &Bank, row: u8, set: &ItemSet) -> Option<SpecFault>
    ensures { result ≡ set_fault bank.now row set.now }
{
    if is_empty(set) {
        return Some(SpecFault::EmptySet(row));
    }
    if has_unknown(bank, set) {
        return Some(SpecFault::BadItem(row));
    }
    None
}

fn quantity_fault(bank: &Bank, row: u8, which: u8) -> Option<SpecFault>
    ensures { result ≡ quantity_fault bank.now row which }
{
    if which >= bank.quantities() {
        return Some(SpecFault::BadQuantity(row));
    }
    None
}

#[tactic(auto, unfolding(crate::specs::Faults::row_fault))]
fn row_fault(bank: &Bank, r: u8, row: &Row) -> Option<SpecFault>
    ensures { result ≡ row_fault bank.now r row.now }
{
    match row {
        Row::Count { set, low, high } => {
            if let Some(fault) = range_fault(r, *low, *high, ITEMS as u32) {
                return Some(fault);
            }
            set_fault(bank, r, set)
        }
        Row::Quantity {
            which,
            set,
            low,
            high,
        } => {
            if let Some(fault) = range_fault(r, *low, *high, 33_553_920) {
                return Some(fault);
            }
            if let Some(fault) = set_fault(bank, r, set) {
                return Some(fault);
            }
            quantity_fault(bank, r, *which)
        }
        Row::Enemies { set } => set_fault(bank, r, set),
        Row::Stimuli { low, high } => range_fault(r, *low, *high, STIMULI as u32),
    }
}

/// The fault of the first row that has one.
fn rows_fault(bank: &Bank, draft: &Draft) -> Option<SpecFault>
    requires { length draft.now.rows ≤ 128 }
    ensures { result ≡ rows_fault bank.now draft.now }
{
    let rows = draft.rows.as_slice();
    for r in 0..rows.len() {
        if let Some(fault) = row_fault(bank, r as u8, &rows[r]) {
            return Some(fault);
        }
    }
    None
}

fn are_logliks(numbers: &[i32]) -> bool
    ensures { result ≡ list_all is_loglik numbers.now }
{
    numbers.iter().all(|n| -10_000_000 <= *n && *n <= 0)
}

fn is_prior(bank: &Bank, draft: &Draft) -> bool
    ensures { result ≡ is_prior bank.now draft.now }
{
    let prior = draft.prior.as_slice();
    prior.len() == bank.grid() as usize && are_logliks(prior)
}

/// The first fault of a draft's length, prior and rows. A reader of drafts tests these before the
/// stimulus numbers of its text, and what is left by `Spec::of`.
#[tactic(auto, unfolding(crate::specs::Faults::front_fault))]
pub fn front_fault(bank: &Bank, draft: &Draft) -> Option<SpecFault>
    // Promise: The faults from the length to the rows, before those of the bounds
    ensures { result ≡ front_fault bank.now draft.now }
{
    if draft.length == 0 || draft.length > u32::from(bank.items()) {
        return Some(SpecFault::Length);
    }
    if !is_prior(bank, draft) {
        return Some(SpecFault::BadPrior);
    }
    if draft.rows.as_slice().len() > ROWS as usize {
        return Some(SpecFault::TooManyRows);
    }
    rows_fault(bank, draft)
}

fn bound_fault(stimulus: u8, bound: &StimulusBound) -> Option<SpecFault>
    ensures { result ≡ bound_fault stimulus bound.now }
{
    if bound.low == 0 || bound.low > bound.high || bound.high > ITEMS as u32 {
        return Some(SpecFault::BadStimulus(stimulus));
    }
    None
}

/// The greatest stimulus of the bank, at most 64.
fn stimuli_of(bank: &Bank) -> u8
    ensures value { result ≡ stimuli_of bank.now }
    ensures few { result ≤ 64 }
{
    prove!(bank.items() > 0);
    bank.stimuli()
}

/// The first fault of the bounds of the stimuli: their number first.
#[tactic(auto, unfolding(crate::specs::Faults::bounds_fault))]
fn bounds_fault(bank: &Bank, draft: &Draft) -> Option<SpecFault>
    ensures { result ≡ bounds_fault bank.now draft.now }
{
    let bounds = draft.bounds.as_slice();
    let stimuli = stimuli_of(bank);
    if bounds.len() < stimuli as usize {
        return Some(SpecFault::BadStimulus(bounds.len() as u8 + 1));
    }
    if bounds.len() > stimuli as usize {
        return Some(SpecFault::BadStimulus(stimuli + 1));
    }
    for k in 0..stimuli {
        if let Some(fault) = bound_fault(k + 1, &bounds[k as usize]) {
            return Some(fault);
        }
    }
    None
}

fn is_rate(rate: Rate) -> bool
    ensures { result ≡ is_rate rate }
{
    0 < rate.num && rate.num <= rate.den && rate.den <= 65_535
}

/// Whether the points rise, each above the one before it and the first one above 0, and are below
/// the number of grid points.
fn rise(points: &[u8], grid: u8) -> bool
    ensures { result ≡ rise 0 grid points.now }
{
    let mut last = 0;
    for point in points {
        if *point <= last || *point >= grid {
            return false;
        }
        last = *point;
    }
    true
}

/// Whether these are points at which bands begin.
fn are_bands(points: &[u8], grid: u8) -> bool
    ensures { result ≡ are_bands grid points.now }
{
    points.len() <= 7 && rise(points, grid)
}

fn is_budget(nodes: u32) -> bool
    ensures { result ≡ is_budget nodes }
{
    nodes % 2 == 1 && nodes <= NODES as u32
}

/// The first fault of a draft's exposure rate, bands, node budgets and limits.
#[tactic(auto, unfolding(crate::specs::Faults::limits_fault))]
fn limits_fault(bank: &Bank, draft: &Draft) -> Option<SpecFault>
    ensures { result ≡ limits_fault bank.now draft.now }
{
    if !is_rate(draft.rate) {
        return Some(SpecFault::BadRate);
    }
    if !are_bands(draft.bands.as_slice(), bank.grid()) {
        return Some(SpecFault::BadBands);
    }
    if !(is_budget(draft.budget) && is_budget(draft.base_budget)) {
        return Some(SpecFault::BadBudget);
    }
    if draft.sessions < 1
        || draft.sessions > SESSIONS
        || draft.journal < 64
        || draft.journal > JOURNAL
    {
        return Some(SpecFault::BadLimit);
    }
    None
}

/// The first breach of a draft's base, if it names one.
fn base_breach(bank: &Bank, draft: &Draft) -> Option<Breach>
    requires { IsCountable bank.now draft.now }
    ensures { IsBaseFault bank.now draft.now result }
{
    match draft.base {
        Some(base) => plan_breach(bank, draft, &base),
        None => None,
    }
}

/// The first fault of a draft's bounds and limits.
fn end_fault(bank: &Bank, draft: &Draft) -> Option<SpecFault>
    ensures { result ≡ (bounds_fault bank.now draft.now orelse limits_fault bank.now draft.now) }
{
    if let Some(fault) = bounds_fault(bank, draft) {
        return Some(fault);
    }
    limits_fault(bank, draft)
}

/// The first fault of a draft whose length, prior and rows have none, or none where it is a plan
/// for the bank.
pub fn remaining_fault(bank: &Bank, draft: &Draft) -> Option<SpecFault>
    requires { front_fault bank.now draft.now ≡ None }
    ensures { MatchOption result (IsPlanFor bank.now draft.now) (IsSpecFault bank.now draft.now) }
{
    if let Some(fault) = end_fault(bank, draft) {
        return Some(fault);
    }
    match base_breach(bank, draft) {
        Some(breach) => Some(SpecFault::BadBase(breach)),
        None => None,
    }
}

/// The first fault of a draft, or none where it is a plan for the bank.
pub fn first_fault(bank: &Bank, draft: &Draft) -> Option<SpecFault>
    ensures { MatchOption result (IsPlanFor bank.now draft.now) (IsSpecFault bank.now draft.now) }
{
    if let Some(fault) = front_fault(bank, draft) {
        return Some(fault);
    }
    remaining_fault(bank, draft)
}
