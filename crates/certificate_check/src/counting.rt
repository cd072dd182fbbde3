//! Rows that are impossible by counting.

ghost use Rattle.std.specs.Prelude.{◌≡◌, ℕ, suc, ◌<◌, ◌≤◌, ◌↔◌, cond, length, get_or, IsTrue, IsFalse};
ghost use Rattle.bank_tables.specs.Items.{has};
ghost use Rattle.bank_tables.specs.Sums.{sum_in};
ghost use Rattle.bank_tables.specs.Tables.{size, quantity};
ghost use Rattle.certificate_model.specs.Counting.{length_impossible, row_impossible, stimulus_impossible, is_impossible};
ghost use Rattle.form_model.specs.Forms.{items_of, stimuli_of};
ghost use Rattle.form_model.specs.Plan.{row_at};
ghost use Rattle.form_model.specs.Validity.{IsRow, IsWellMade};
ghost use Rattle.constraint_model.specs.Views.{problem_of};
ghost use Rattle.certificate_check.specs.Columns.{IsColumn};
ghost use Rattle.certificate_check.specs.Cuts.{path_of, IsStanding};

use crate::column::{Column, no_column, read_column, value_in};
use crate::standing::Standing;
use bank_tables::{Bank, ItemSet};
use constraint_model::counts::{activity, items_of, lower_bound, size_in, upper_bound};
use constraint_model::{Problem, Row};

/// Whether too many items are taken, or too few are taken or free.
fn length_impossible(problem: &Problem, standing: &Standing) -> bool
    requires { IsStanding (problem_of problem.now) standing.now }
    ensures { result ≡ length_impossible (problem_of problem.now) (path_of standing.now.cut) }
{
    let length = problem.spec.length();
    let taken = size_in(problem.bank, &standing.cut.taken);
    let may_hold = size_in(problem.bank, &standing.may_hold);
    length < taken || may_hold < length
}

/// Whether what is taken exceeds the upper bound of a row, or what is taken or free is below its
/// lower bound.
fn row_impossible(problem: &Problem, standing: &Standing, row: &Row) -> bool
    requires row { IsRow problem.now.bank.now row.now }
    requires standing { IsStanding (problem_of problem.now) standing.now }
    ensures { result ≡ row_impossible (problem_of problem.now) (path_of standing.now.cut) row.now }
{
    let least = activity(problem.bank, row, &standing.cut.taken, &standing.chosen);
    let most = activity(problem.bank, row, &standing.may_hold, &standing.may_use);
    upper_bound(row) < least || most < lower_bound(row)
}

/// The same for the items of a stimulus, of which so many are taken, and so many taken or free.
fn stimulus_misses(problem: &Problem, standing: &Standing, which: u8, least: u32, most: u32) -> bool
    requires well_made { IsWellMade (problem_of problem.now) }
    requires first { 0 < which }
    requires last { which ≤ stimuli_of problem.now.bank.now }
    requires standing { IsStanding (problem_of problem.now) standing.now }
    requires least { least ≡ items_of problem.now.bank.now which (has standing.now.cut.taken) }
    requires most { most ≡ items_of problem.now.bank.now which (has standing.now.may_hold) }
    ensures { result ≡
        stimulus_impossible (problem_of problem.now) (path_of standing.now.cut) which }
{
    let bound = problem.spec.bounds()[which as usize - 1];
    bound.high < least || standing.chosen.has(which as u16) && most < bound.low
}

/// The same of a stimulus by its number alone.
fn stimulus_impossible(problem: &Problem, standing: &Standing, which: u8) -> bool
    requires well_made { IsWellMade (problem_of problem.now) }
    requires first { 0 < which }
    requires last { which ≤ stimuli_of problem.now.bank.now }
    requires standing { IsStanding (problem_of problem.now) standing.now }
    ensures { result ≡
        stimulus_impossible (problem_of problem.now) (path_of standing.now.cut) which }
{
    let least = items_of(problem.bank, which, &standing.cut.taken);
    let most = items_of(problem.bank, which, &standing.may_hold);
    stimulus_misses(problem, standing, which, least, most)
}

/// Whether a row, by number, is impossible by counting: 0 is the length, then come the rows of the
/// plan and the stimuli.
pub fn is_impossible(problem: &Problem, standing: &Standing, row: u8) -> bool
    requires well_made { IsWellMade (problem_of problem.now) }
    requires standing { IsStanding (problem_of problem.now) standing.now }
    ensures { result ≡ is_impossible (problem_of problem.now) (path_of standing.now.cut) row }
{
    if row == 0 {
        return length_impossible(problem, standing);
    }
    let rows = problem.spec.rows();
    let place = row as usize - 1;
    if place < rows.len() {
        row_impossible(problem, standing, &rows[place])
    } else if place < rows.len() + problem.bank.stimuli() as usize {
        stimulus_impossible(problem, standing, (place + 1 - rows.len()) as u8)
    } else {
        false
    }
}

/// How many items of a set each stimulus has, by its number; at 0 those of no stimulus.
pub fn items_of_each(bank: &Bank, items: &ItemSet) -> [u32; 65]
    ensures { (s : ℕ) → s < 65 →
        get_or result s 0 ≡ items_of bank.now s (has items.now) }
{
    let mut counts = [0u32; 65];
    for i in 0..bank.items() {
        counts[bank.stimulus(i) as usize] += items.has(i) as u32;
    }
    counts
}

/// Whether no stimulus is impossible by counting. The items of all are counted in one pass.
fn are_stimuli_possible(problem: &Problem, standing: &Standing) -> bool
    requires well_made { IsWellMade (problem_of problem.now) }
    requires standing { IsStanding (problem_of problem.now) standing.now }
    ensures { IsTrue result ↔
        ((k : ℕ) → k < stimuli_of problem.now.bank.now →
        IsFalse (stimulus_impossible
        (problem_of problem.now) (path_of standing.now.cut) (suc k))) }
{
    let least = items_of_each(problem.bank, &standing.cut.taken);
    let most = items_of_each(problem.bank, &standing.may_hold);
    for k in 0..problem.bank.stimuli() {
        let at = k as usize + 1;
        if stimulus_misses(problem, standing, k + 1, least[at], most[at]) {
            return false;
        }
    }
    true
}

/// A value where the item is in the set, else 0.
fn value_where(items: &ItemSet, item: u16, value: u32) -> u32
    requires { value ≤ 65535 }
    ensures value { result ≡ cond (has items.now item) value 0 }
    ensures few { result ≤ 65535 }
{
    if items.has(item) { value } else { 0 }
}

/// The sums of the values of a set's items, over those in one set and over those in another.
fn two_sums(
    bank: &Bank,
    set: &ItemSet,
    values: &[u32; 512],
    first: &ItemSet,
    second: &ItemSet,
) -> (u32, u32)
    requires { (i : ℕ) → i < size bank.now → get_or values.now i 0 ≤ 65535 }
    ensures first { result.0 ≡
        sum_in (size bank.now) (has first.now)
        (λ i. cond (has set.now i) (get_or values.now i 0) 0) }
    ensures second { result.1 ≡
        sum_in (size bank.now) (has second.now)
        (λ i. cond (has set.now i) (get_or values.now i 0) 0) }
{
    let mut one = 0u32;
    let mut other = 0u32;
    for i in 0..bank.items() {
        let value = value_in(values, set, i);
        one += value_where(first, i, value);
        other += value_where(second, i, value);
    }
    (one, other)
}

/// The sums of a quantity over a set's items that are taken, and over those taken or free.
fn quantity_sums(
    problem: &Problem,
    standing: &Standing,
    set: &ItemSet,
    which: u8,
    column: &mut Column,
) -> (u32, u32)
    requires which { which < problem.now.bank.now.quantities }
    requires column { IsColumn problem.now.bank.now column.old }
    ensures column { IsColumn problem.now.bank.now column.new }
    ensures least { result.0 ≡
        sum_in (size problem.now.bank.now) (has standing.now.cut.taken)
        (λ i. cond (has set.now i) (quantity problem.now.bank.now i which) 0) }
    ensures most { result.1 ≡
        sum_in (size problem.now.bank.now) (has standing.now.may_hold)
        (λ i. cond (has set.now i) (quantity problem.now.bank.now i which) 0) }
{
    let bank = problem.bank;
    let _items = bank.items();
    read_column(bank, which, column);
    two_sums(
        bank,
        set,
        &column.values,
        &standing.cut.taken,
        &standing.may_hold,
    )
}

/// Whether a row is impossible by counting, where a quantity is read once for many rows.
fn row_misses(problem: &Problem, standing: &Standing, row: &Row, column: &mut Column) -> bool
    requires row { IsRow problem.now.bank.now row.now }
    requires standing { IsStanding (problem_of problem.now) standing.now }
    requires column { IsColumn problem.now.bank.now column.old }
    ensures column { IsColumn problem.now.bank.now column.new }
    ensures misses { result ≡
        row_impossible (problem_of problem.now) (path_of standing.now.cut) row.now }
{
    match row {
        Row::Quantity {
            which,
            set,
            low,
            high,
        } => {
            let (least, most) = quantity_sums(problem, standing, set, *which, column);
            *high < least || most < *low
        }
        _ => row_impossible(problem, standing, row),
    }
}

/// Whether no row of the plan is impossible by counting.
fn are_rows_possible(problem: &Problem, standing: &Standing) -> bool
    requires well_made { IsWellMade (problem_of problem.now) }
    requires standing { IsStanding (problem_of problem.now) standing.now }
    ensures { IsTrue result ↔
        ((r : ℕ) → r < length problem.now.spec.now.rows →
        IsFalse (row_impossible (problem_of problem.now) (path_of standing.now.cut)
        (row_at problem.now.spec.now r))) }
{
    let rows = problem.spec.rows();
    let mut column = no_column();
    for r in 0..rows.len() {
        if row_misses(problem, standing, &rows[r], &mut column) {
            return false;
        }
    }
    true
}

/// Whether no row, by number, is impossible by counting.
pub fn is_possible(problem: &Problem, standing: &Standing) -> bool
    requires well_made { IsWellMade (problem_of problem.now) }
    requires standing { IsStanding (problem_of problem.now) standing.now }
    ensures { IsTrue result ↔
        ((r : ℕ) →
        IsFalse (is_impossible (problem_of problem.now) (path_of standing.now.cut) r)) }
{
    if length_impossible(problem, standing) {
        return false;
    }
    if !are_rows_possible(problem, standing) {
        return false;
    }
    are_stimuli_possible(problem, standing)
}
