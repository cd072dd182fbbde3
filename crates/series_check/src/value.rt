//! Whether sets are a series, and its value.

ghost use Rattle.std.specs.Prelude.{◌≡◌, ◌≤◌, ◌<◌, ◌↔◌, ℕ, IsTrue, length};
ghost use Rattle.bank_tables.specs.Items.{has};
ghost use Rattle.bank_tables.specs.Sums.{sum_in};
ghost use Rattle.bank_tables.specs.Tables.{size, info};
ghost use Rattle.form_model.specs.Forms.{Meets};
ghost use Rattle.series_model.specs.Series.{IsSeriesProblem, IsSeries, IsSeriesList, IsValue, forms_of};
ghost use Rattle.series_check.specs.Cuts.{problem_of};
ghost use Rattle.series_check.specs.Values.{AreApart, IsLesser, IsLeastTo};

use crate::setting::Setting;
use bank_tables::{Bank, ItemSet};
use constraint_model::{Problem, is_form};

/// Whether a set meets the plan.
fn meets_plan(setting: &Setting, items: &ItemSet) -> bool
    requires { IsSeriesProblem (problem_of setting.now) }
    ensures { IsTrue result ↔ Meets setting.now.bank.now setting.now.spec.now (has items.now) }
{
    is_form(&Problem::whole(setting.bank, setting.spec), items)
}

/// Whether each of the first sets meets the plan.
fn all_meet(setting: &Setting, sets: &[ItemSet]) -> bool
    requires problem { IsSeriesProblem (problem_of setting.now) }
    requires enough { setting.now.forms ≤ length sets.now }
    ensures { IsTrue result ↔ ((f : ℕ) → f < setting.now.forms
        → Meets setting.now.bank.now setting.now.spec.now (forms_of sets.now f)) }
{
    for f in 0..setting.forms {
        if !meets_plan(setting, &sets[f as usize]) {
            return false;
        }
    }
    true
}

/// Whether no item is in two of the first sets.
pub fn are_apart(forms: u8, sets: &[ItemSet]) -> bool
    requires { forms ≤ length sets.now }
    ensures { IsTrue result ↔ AreApart forms (forms_of sets.now) }
{
    let mut seen = ItemSet::empty();
    for f in 0..forms {
        let items = sets[f as usize];
        if seen.meet(items).first().is_some() {
            return false;
        }
        seen = seen.union(items);
    }
    true
}

/// Whether the first sets are a series.
pub fn is_series(setting: &Setting, sets: &[ItemSet]) -> bool
    requires problem { IsSeriesProblem (problem_of setting.now) }
    requires enough { setting.now.forms ≤ length sets.now }
    // Promise: Sets are a series exactly where the definition has it
    // - by the clauses
    ensures { IsTrue result ↔ IsSeries (problem_of setting.now) (forms_of sets.now) }
{
    all_meet(setting, sets) && are_apart(setting.forms, sets)
}

/// Whether the list has as many sets as there are forms, and they are a series.
pub fn is_series_list(setting: &Setting, sets: &[ItemSet]) -> bool
    requires { IsSeriesProblem (problem_of setting.now) }
    ensures { IsTrue result ↔ IsSeriesList (problem_of setting.now) sets.now }
{
    sets.len() == setting.forms as usize && is_series(setting, sets)
}

/// The information of a set at a grid point.
fn information_at(bank: &Bank, items: &ItemSet, point: u8) -> u64
    requires { point < bank.now.grid }
    ensures value { result ≡ sum_in (size bank.now) (has items.now) (λ i. info bank.now i point) }
    ensures high { result ≤ 512000000 }
{
    let mut sum = 0u64;
    for i in 0..bank.items() {
        if items.has(i) {
            sum += bank.info(i, point) as u64;
        }
    }
    sum
}

/// The lesser of a number, or none, and another.
fn lesser(first: Option<u64>, second: u64) -> u64
    ensures { IsLesser first second result }
{
    match first {
        None => second,
        Some(one) => { if one < second { one } else { second } }
    }
}

/// The least weighted information of a set at the points that count.
fn form_least(setting: &Setting, items: &ItemSet) -> Option<u64>
    requires { IsSeriesProblem (problem_of setting.now) }
    ensures { IsLeastTo (problem_of setting.now) (has items.now) setting.now.bank.now.grid result }
{
    let mut least: Option<u64> = None;
    for g in 0..setting.bank.grid() {
        let weight = setting.weights[g as usize] as u64;
        if weight > 0 {
            let here = weight * information_at(setting.bank, items, g);
            least = Some(lesser(least, here));
        }
    }
    least
}

/// The value of the first sets: the least weighted information of one at a point that counts.
pub fn value(setting: &Setting, sets: &[ItemSet]) -> u64
    requires problem { IsSeriesProblem (problem_of setting.now) }
    requires enough { setting.now.forms ≤ length sets.now }
    ensures { IsValue (problem_of setting.now) (forms_of sets.now) result }
{
    let mut least: Option<u64> = None;
    for f in 0..setting.forms {
        if let Some(here) = form_least(setting, &sets[f as usize]) {
            least = Some(lesser(least, here));
        }
    }
    least.unwrap_or(0)
}
