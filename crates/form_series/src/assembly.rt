//! The assembly of a form series.

ghost use Rattle.std.specs.Prelude.{◌≡◌, ℕ, ◌+◌, ◌*◌, ◌^◌, ◌≤◌, IfOk, IsTrue};
ghost use Rattle.bank_tables.specs.Tables.{size};
ghost use Rattle.form_model.specs.Validity.{IsBudget};
ghost use Rattle.series_model.specs.Series.{IsSeriesProblem, weight_of};
ghost use Rattle.series_check.specs.Cuts.{problem_of};
ghost use Rattle.series_outcome.specs.Assemblies.{IsShown, IsTrueOutcome, IsDecided, IsBestForm, KeepsSeries};
ghost use Rattle.form_series.specs.Orders.{IsInOrder};
ghost use Rattle.form_series.specs.SeriesBounds.{IsBoundOf};

use crate::bound::{SeriesBound, bound_shown};
use crate::order::in_order;
use bank_tables::{Bank, ItemSet, List};
use constraint_model::Spec;
use series_check::Setting;
use series_outcome::{Series, SeriesOutcome, known_series, outcome_shown, search_fallback};
use series_search::{Kinds, Searched, search};
use series_tree::{Memory, SeriesTree};
use std::alloc::Global;

/// An outcome, the tree that shows it, and, beside a series that is not proved best, a bound of all
/// series, if one was shown.
#[derive(Debug, Drop)]
pub struct AssembledSeries {
    pub outcome: SeriesOutcome,
    pub tree: SeriesTree,
    pub bound: Option<SeriesBound>,
}

/// Whether the search went to its end.
fn is_decided(outcome: &SeriesOutcome) -> bool
    ensures { IsTrue result → IsDecided outcome.now }
{
    match outcome {
        SeriesOutcome::Found { proved, .. } => *proved,
        SeriesOutcome::NoSeries => true,
        SeriesOutcome::NoneFound => false,
    }
}

/// Whether the budget is enough for a branch on each item in each form, so that the fallback search
/// decides.
fn is_enough(setting: &Setting, budget: u16) -> bool
    requires problem { IsSeriesProblem (problem_of setting.now) }
    requires budget { IsBudget budget }
    ensures { 2 ^ (setting.now.forms * size setting.now.bank.now + 1) ≤ budget + 1 → IsTrue result }
{
    let branches = setting.forms as u32 * setting.bank.items() as u32;
    branches < 12 && 2u32.pow(branches + 1) <= budget as u32 + 1
}

/// What a search gave, if it passes every test and either decides or the budget is too small for a
/// sure decision; else what the fallback search gives, which begins with the forms of the search.
/// They are not lost: what is given is no worse, if they are a series.
fn tested(
    alloc: Global,
    setting: &Setting,
    forms: Option<List<ItemSet>>,
    tree: Option<SeriesTree>,
    budget: u16,
) -> Result<Series, Memory>
    requires problem { IsSeriesProblem (problem_of setting.now) }
    requires budget { IsBudget budget }
    ensures shown { IfOk result (λ s. IsShown (problem_of setting.now) s.tree budget s.outcome) }
    ensures decided { IfOk result (λ s. 2 ^ (setting.now.forms * size setting.now.bank.now + 1)
        ≤ budget + 1 → IsDecided s.outcome) }
    ensures keeps { IfOk result (λ s. KeepsSeries (problem_of setting.now) forms s.outcome) }
{
    let known = known_series(setting, &forms);
    if let Some(tree) = tree {
        if let Some(outcome) = outcome_shown(setting, forms, &tree, budget) {
            if is_decided(&outcome) || !is_enough(setting, budget) {
                return Ok(Series { outcome, tree });
            }
        }
    }
    let series = search_fallback(alloc, setting, known, budget)?;
    Ok(series)
}

/// A search, its outcome with the forms in order, and the bound where the series is not proved
/// best.
fn make(alloc: Global, setting: &Setting, budget: u16) -> Result<AssembledSeries, Memory>
    requires problem { IsSeriesProblem (problem_of setting.now) }
    requires budget { IsBudget budget }
    ensures shown { IfOk result (λ s. IsShown (problem_of setting.now) s.tree budget s.outcome) }
    ensures order { IfOk result (λ s. IsInOrder (problem_of setting.now) s.outcome) }
    ensures bound { IfOk result (λ s. IsBoundOf (problem_of setting.now) s.outcome s.bound) }
    ensures decided { IfOk result (λ s. 2 ^ (setting.now.forms * size setting.now.bank.now + 1)
        ≤ budget + 1 → IsDecided s.outcome) }
{
    let Searched { forms, tree, bound } = search(
        alloc,
        setting.bank,
        setting.spec,
        setting.weights,
        setting.forms,
        budget,
        Kinds::judged(),
    )?;
    let Series { outcome, tree } = tested(alloc, setting, forms, tree, budget)?;
    let outcome = in_order(alloc, outcome)?;
    let bound = bound_shown(setting, &outcome, bound);
    Ok(AssembledSeries {
        outcome,
        tree,
        bound,
    })
}

/// Assembles a series of so many forms of the plan, 1 to 4, within a budget of nodes, and the tree
/// that shows it. `weights` has the weight of each grid point, at most 1,000, and one is above 0.
/// The only error is lack of memory.
pub fn assemble_series(
    alloc: Global,
    bank: &Bank,
    spec: &Spec,
    weights: &[u32],
    forms: u8,
    budget: u16,
) -> Result<AssembledSeries, Memory>
    requires problem { IsSeriesProblem
        (record { bank = bank.now; plan = spec.now; weights = weights.now; forms = forms }) }
    requires budget { IsBudget budget }
    // The checker's verdict on the tree is that of the outcome; undecided, the tree spends the
    // budget.
    // Promise: The checker's verdict on the tree is that of the outcome; undecided, the tree spends
    // the budget
    ensures shown { IfOk result (λ s. IsShown
        (record { bank = bank.now; plan = spec.now; weights = weights.now; forms = forms })
        s.tree budget s.outcome) }
    // Proved, no series has a greater value; without a series, there is none.
    // Promise: A proved series is best; without a series, there is none
    ensures is_true { IfOk result (λ s. IsTrueOutcome
        (record { bank = bank.now; plan = spec.now; weights = weights.now; forms = forms })
        s.outcome) }
    // The forms are in ascending order of their lowest item.
    // Promise: The forms are in ascending order of their lowest item
    ensures order { IfOk result (λ s. IsInOrder
        (record { bank = bank.now; plan = spec.now; weights = weights.now; forms = forms })
        s.outcome) }
    // Beside a series that is not proved best, and nowhere else, there may be a number that the
    // value of no series exceeds.
    // Promise: A number that stands beside a series which is not proved best is one that the value
    // of no series exceeds, and the checker accepts its tree; it stands nowhere else
    ensures bound { IfOk result (λ s. IsBoundOf
        (record { bank = bank.now; plan = spec.now; weights = weights.now; forms = forms })
        s.outcome s.bound) }
    // With enough nodes it decides.
    // Promise: With a budget of nodes for a branch on each item in each form, it decides
    ensures decided { IfOk result (λ s. 2 ^ (forms * size bank.now + 1) ≤ budget + 1
        → IsDecided s.outcome) }
    // Of one form and one point of weight 1, a proved series is a best form of the whole problem.
    // Promise: Of one form and one point of weight 1, a proved series is a best form of the whole
    // problem, and its value that form's objective
    ensures one_form { IfOk result (λ s. (g : ℕ) → forms ≡ 1
        → weight_of (record { bank = bank.now; plan = spec.now; weights = weights.now; forms = forms })
        g ≡ 1
        → ((h : ℕ) → (h ≡ g → ⊥) → weight_of (record {
          bank = bank.now;
          plan = spec.now;
          weights = weights.now;
          forms = forms;
        }) h ≡ 0)
        → IsBestForm (record {
          bank = bank.now;
          plan = spec.now;
          weights = weights.now;
          forms = forms;
        }) g s.outcome) }
{
    let setting = Setting {
        bank,
        spec,
        weights,
        forms,
    };
    let series = make(alloc, &setting, budget)?;
    Ok(series)
}
