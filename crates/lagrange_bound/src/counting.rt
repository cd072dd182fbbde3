//! Rows that are impossible by counting.

ghost use Rattle.std.specs.Prelude.{◌≡◌, ℕ, suc, ◌+◌, ◌<◌, ◌≤◌, length, nat_lt, slice_index, true, ◌&&◌, ◌||◌};
ghost use Rattle.bank_tables.specs.Items.{has};
ghost use Rattle.bank_tables.specs.Tables.{stimulus};
ghost use Rattle.certificate_model.specs.Paths.{Path};
ghost use Rattle.form_model.specs.Plan.{row_at};
ghost use Rattle.form_model.specs.Forms.{activity, items_of, lower_bound, size_in, stimuli_of, upper_bound};
ghost use Rattle.certificate_model.specs.Counting.{row_impossible, stimulus_impossible, IsFirstImpossible};
ghost use Rattle.form_model.specs.Validity.{IsRow, IsWellMade};
ghost use Rattle.constraint_model.specs.Views.{problem_of};
ghost use Rattle.lagrange_bound.specs.Cuts.{IsCut, IsCutOf};
ghost use Rattle.lagrange_bound.specs.Counted.{IsFirstWhere, IsWanted};

use crate::cut::Cut;
use bank_tables::{Bank, ItemSet};
use constraint_model::counts::{activity, lower_bound, size_in, upper_bound};
use constraint_model::{Problem, Row};

/// How many items the test needs beyond those taken; None exactly where the length is impossible.
pub fn items_wanted(problem: &Problem, cut: &Cut) -> Option<u32>
    ensures { (p : Path) → IsCutOf (problem_of problem.now) p cut.now →
        IsWanted (problem_of problem.now) p result }
{
    let length = problem.spec.length();
    let taken = size_in(problem.bank, &cut.taken);
    let free = size_in(problem.bank, &cut.free);
    if length < taken {
        return None;
    }
    if taken + free < length {
        return None;
    }
    Some(length - taken)
}

/// The bounds of a row, the lower first.
pub fn bounds_of(row: &Row) -> (u32, u32)
    ensures low { result.0 ≡ lower_bound row.now }
    ensures high { result.1 ≡ upper_bound row.now }
{
    (lower_bound(row), upper_bound(row))
}

/// Whether what is had at least exceeds the upper bound, or what is had at most is below a lower
/// bound that counts.
fn is_outside(bounds: (u32, u32), least: u32, most: u32, counts: bool) -> bool
    ensures { result ≡ (nat_lt bounds.1 least || (counts && nat_lt most bounds.0)) }
{
    let (low, high) = bounds;
    high < least || counts && most < low
}

/// Whether what is taken exceeds the row's upper bound, or what is taken or free is below its lower
/// bound.
fn row_impossible(problem: &Problem, cut: &Cut, row: &Row) -> bool
    requires { IsRow problem.now.bank.now row.now }
    ensures { (p : Path) → IsCutOf (problem_of problem.now) p cut.now →
        result ≡ row_impossible (problem_of problem.now) p row.now }
{
    let items = cut.taken.union(cut.free);
    let stimuli = cut.chosen.union(cut.opened);
    let least = activity(problem.bank, row, &cut.taken, &cut.chosen);
    let most = activity(problem.bank, row, &items, &stimuli);
    is_outside(bounds_of(row), least, most, true)
}

/// The first row of the plan that is impossible.
fn first_row(problem: &Problem, cut: &Cut) -> Option<u8>
    requires { IsWellMade (problem_of problem.now) }
    ensures { (p : Path) → IsCutOf (problem_of problem.now) p cut.now →
        IsFirstWhere (length problem.now.spec.now.rows) (λ r.
        row_impossible (problem_of problem.now) p (row_at problem.now.spec.now r)) result }
{
    let rows = problem.spec.rows();
    for r in 0..rows.len() {
        if row_impossible(problem, cut, &rows[r]) {
            return Some(r as u8);
        }
    }
    None
}

/// How many items of the bank in the set each stimulus has; at 0 the items without one.
fn items_by_stimulus(bank: &Bank, items: &ItemSet) -> [u32; 65]
    ensures { (s : ℕ) → s ≤ 64 → slice_index result s ≡ items_of bank.now s (has items.now) }
{
    let mut counts = [0u32; 65];
    for i in 0..bank.items() {
        if items.has(i) {
            counts[bank.stimulus(i) as usize] += 1;
        }
    }
    counts
}

/// Whether a stimulus has too many items taken, or is chosen and has too few taken or free.
fn stimulus_impossible(problem: &Problem, cut: &Cut, which: u16, least: u32, most: u32) -> bool
    requires first { 0 < which }
    requires last { which ≤ length problem.now.spec.now.bounds }
    requires least { least ≡ items_of problem.now.bank.now which (has cut.now.taken) }
    requires most { most ≡ items_of problem.now.bank.now which (λ i.
        has cut.now.taken i || has cut.now.free i) }
    ensures { (p : Path) → IsCutOf (problem_of problem.now) p cut.now →
        result ≡ stimulus_impossible (problem_of problem.now) p which }
{
    let bound = problem.spec.bounds()[which as usize - 1];
    is_outside((bound.low, bound.high), least, most, cut.chosen.has(which))
}

/// The first stimulus that is impossible, counted from 0 on.
fn first_stimulus(problem: &Problem, cut: &Cut) -> Option<u8>
    requires { IsWellMade (problem_of problem.now) }
    ensures { (p : Path) → IsCutOf (problem_of problem.now) p cut.now →
        IsFirstWhere (stimuli_of problem.now.bank.now) (λ k.
        stimulus_impossible (problem_of problem.now) p (suc k)) result }
{
    let items = cut.taken.union(cut.free);
    let least = items_by_stimulus(problem.bank, &cut.taken);
    let most = items_by_stimulus(problem.bank, &items);
    for k in 0..problem.bank.stimuli() {
        let at = k as usize + 1;
        if stimulus_impossible(problem, cut, k as u16 + 1, least[at], most[at]) {
            return Some(k);
        }
    }
    None
}

/// The lowest row that is impossible by counting, by number: 0 is the length, then come the rows of
/// the plan and the stimuli; None exactly where there is none. Takes no memory.
// Promise: The row that is named is the lowest that is impossible by counting on the path; none
// exactly where there is none
// - by `IsFirstImpossible`
pub fn impossible(problem: &Problem, cut: &Cut) -> Option<u8>
    requires well_made { IsWellMade (problem_of problem.now) }
    requires cut { IsCut (problem_of problem.now) cut.now }
    ensures { (p : Path) → IsCutOf (problem_of problem.now) p cut.now →
        IsFirstImpossible (problem_of problem.now) p result }
{
    let rows = problem.spec.rows().len();
    match items_wanted(problem, cut) {
        None => Some(0),
        Some(_) => match first_row(problem, cut) {
            Some(row) => Some(row + 1),
            None => match first_stimulus(problem, cut) {
                Some(k) => Some(rows as u8 + 1 + k),
                None => None,
            },
        },
    }
}
