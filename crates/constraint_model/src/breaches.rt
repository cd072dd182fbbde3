//! Whether a set of items is a form.

ghost use Rattle.std.specs.Prelude.{◌≡◌, ◌<◌, ◌↔◌, ℕ, IsTrue};
ghost use Rattle.bank_tables.specs.Items.{has};
ghost use Rattle.bank_tables.specs.Validity.{HoldsItems};
ghost use Rattle.form_model.specs.Breaches.{IsFirstBreach};
ghost use Rattle.form_model.specs.Forms.{Form, activity, items_of, used};
ghost use Rattle.form_model.specs.Validity.{IsRow, IsWellMade};
ghost use Rattle.constraint_model.specs.Views.{problem_of};
ghost use Rattle.constraint_model.specs.Countable.{IsCountable};
ghost use Rattle.constraint_model.specs.FirstBreaches.{IsLengthBreach, IsRowBreach, IsStimulusBreach, IsFirstMissing, IsFirstCommon, IsPlanBreach};

use crate::counts::{activity, items_of, lower_bound, stimuli_used, upper_bound};
use crate::problem::Problem;
use bank_tables::{Bank, ItemSet};
use form_model::{Breach, Draft, Row};

/// The number of items of the form, where it isn't the plan's or an item isn't of the bank.
fn wrong_length(bank: &Bank, plan: &Draft, form: &ItemSet) -> Option<u32>
    ensures { IsLengthBreach bank.now plan.now (has form.now) result }
{
    let found = form.count();
    if form.all_below(bank.items()) && found == plan.length {
        None
    } else {
        Some(found)
    }
}

/// The activity of a row at a form that uses these stimuli.
fn activity_at(bank: &Bank, row: &Row, form: &ItemSet, stimuli: &ItemSet) -> u32
    requires row { IsRow bank.now row.now }
    requires stimuli { (s : ℕ) → has stimuli.now s ≡ used bank.now (has form.now) s }
    ensures { result ≡
        activity bank.now row.now (has form.now) (used bank.now (has form.now)) }
{
    activity(bank, row, form, stimuli)
}

/// The first row that doesn't hold, with the activity found, at a form that uses these stimuli.
fn row_breach(bank: &Bank, plan: &Draft, form: &ItemSet, stimuli: &ItemSet) -> Option<(u8, u32)>
    requires plan { IsCountable bank.now plan.now }
    requires items { HoldsItems bank.now (has form.now) }
    requires stimuli { (s : ℕ) → has stimuli.now s ≡ used bank.now (has form.now) s }
    ensures { IsRowBreach bank.now plan.now (has form.now) result }
{
    let rows = plan.rows.as_slice();
    for (r, row) in rows.iter().enumerate() {
        let found = activity_at(bank, row, form, stimuli);
        if found < lower_bound(row) || found > upper_bound(row) {
            return Some((r as u8, found));
        }
    }
    None
}

/// How many items of a form that uses these stimuli have the stimulus.
fn items_at(bank: &Bank, stimulus: u8, form: &ItemSet, stimuli: &ItemSet) -> u32
    requires stimulus { 0 < stimulus }
    requires stimuli { (s : ℕ) → has stimuli.now s ≡ used bank.now (has form.now) s }
    ensures { result ≡ items_of bank.now stimulus (has form.now) }
{
    if stimuli.has(stimulus as u16) {
        items_of(bank, stimulus, form)
    } else {
        0
    }
}

/// The first stimulus that doesn't hold, with its number of items, at a form that uses these
/// stimuli.
fn stimulus_breach(
    bank: &Bank,
    plan: &Draft,
    form: &ItemSet,
    stimuli: &ItemSet,
) -> Option<(u8, u32)>
    requires plan { IsCountable bank.now plan.now }
    requires stimuli { (s : ℕ) → has stimuli.now s ≡ used bank.now (has form.now) s }
    ensures { IsStimulusBreach bank.now plan.now (has form.now) result }
{
    let bounds = plan.bounds.as_slice();
    for k in 0..bank.stimuli() {
        let bound = bounds[k as usize];
        let found = items_at(bank, k + 1, form, stimuli);
        if found > 0 && found < bound.low || found > bound.high {
            return Some((k + 1, found));
        }
    }
    None
}

/// The first member of the one set that isn't in the other.
fn first_missing(members: &ItemSet, of: &ItemSet) -> Option<u16>
    ensures { IsFirstMissing (has members.now) (has of.now) result }
{
    members.minus(*of).first()
}

/// The first member that both sets have.
fn first_common(members: &ItemSet, of: &ItemSet) -> Option<u16>
    ensures { IsFirstCommon (has members.now) (has of.now) result }
{
    members.meet(*of).first()
}

/// The first breach of a plan's length, rows and stimuli, or none where the set meets the plan.
pub fn plan_breach(bank: &Bank, plan: &Draft, form: &ItemSet) -> Option<Breach>
    requires { IsCountable bank.now plan.now }
    ensures { IsPlanBreach bank.now plan.now (has form.now) result }
{
    if let Some(found) = wrong_length(bank, plan, form) {
        return Some(Breach::Length(found));
    }
    let stimuli = stimuli_used(bank, form);
    if let Some((row, found)) = row_breach(bank, plan, form, &stimuli) {
        return Some(Breach::Row(row, found));
    }
    if let Some((stimulus, found)) = stimulus_breach(bank, plan, form, &stimuli) {
        return Some(Breach::Stimulus(stimulus, found));
    }
    None
}

/// The first breach of a set of items, in the order of length, rows, stimuli, items given and items
/// barred, with the value found; none exactly where the set is a form of the problem.
// Promise: No breach is found exactly where the set is a form of the problem. Else it is the first,
// in the order of length, rows, stimuli, given and barred items, with the value found
// - by `IsFirstBreach`
pub fn meets(problem: &Problem, form: &ItemSet) -> Option<Breach>
    requires { IsWellMade (problem_of problem.now) }
    ensures { IsFirstBreach (problem_of problem.now) (has form.now) result }
{
    if let Some(breach) = plan_breach(problem.bank, problem.spec.draft(), form) {
        return Some(breach);
    }
    if let Some(item) = first_missing(&problem.given, form) {
        return Some(Breach::Given(item));
    }
    if let Some(item) = first_common(&problem.barred, form) {
        return Some(Breach::Barred(item));
    }
    None
}

/// Whether the set is a form of the problem.
pub fn is_form(problem: &Problem, form: &ItemSet) -> bool
    requires { IsWellMade (problem_of problem.now) }
    // Promise: A set is accepted as a form exactly if it is one
    // - by the clause (`Form`)
    ensures { IsTrue result ↔ Form (problem_of problem.now) (has form.now) }
{
    meets(problem, form).is_none()
}
