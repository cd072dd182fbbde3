//! What the command `series` answers.

ghost use Rattle.std.specs.Prelude.{◌≡◌, ◌↔◌, ℕ, ◌<◌, ◌≤◌, get_or, IsTrue, IfOk, IfErr};
ghost use Rattle.form_model.specs.Validity.{IsPlanFor};
ghost use Rattle.series_check.specs.Cuts.{problem_of};
ghost use Rattle.series_model.specs.Series.{IsSeriesProblem};
ghost use Rattle.form_series.specs.Orders.{IsInOrder};
ghost use Rattle.form_series.specs.SeriesBounds.{IsBoundOf};
ghost use Rattle.series_outcome.specs.Assemblies.{IsShown, IsTrueOutcome};
ghost use Rattle.form_lines.specs.Answers.{AreWeightsFor, series_problem, TellsSeries, IsEnd};

use crate::series::series_text;
use bank_tables::Bank;
use constraint_model::Spec;
use form_series::{AssembledSeries, SeriesOutcome, assemble_series};
use series_check::{Setting, series_value};
use series_tree::SeriesTree;
use std::alloc::{AllocError, Global};

/// Why there is no series to print.
#[derive(Drop)]
pub enum SeriesEnd {
    /// The weights are not those of the grid's points: they are another number, or all are 0.
    Weights,
    /// There is no series: the tree that shows it.
    NoSeries(SeriesTree),
    /// No series was found within the base budget, in nodes: the tree that spends it.
    NoneFound { budget: u32, tree: SeriesTree },
    /// Out of memory.
    Memory,
}

impl From<AllocError> for SeriesEnd {
    ghost use Rattle.std.specs.Prelude.{◌≡◌};
    ghost use Rattle.form_lines.specs.declared.answer.SeriesEnd.TheVariants.{Memory};

    ghost from_gives = { λ _ e. e ≡ Memory };

    fn from(_: AllocError) -> SeriesEnd {
        SeriesEnd::Memory
    }
}

/// Whether a weight is above 0.
fn has_weight(weights: &[u32]) -> bool
    ensures { IsTrue result ↔ ((g : ℕ) × (0 < get_or weights.now g 0)) }
{
    for weight in weights {
        if *weight > 0 {
            return true;
        }
    }
    false
}

/// Whether each point of the grid has a weight, and one is above 0.
fn are_weights_for(bank: &Bank, weights: &[u32]) -> bool
    ensures { IsTrue result ↔ AreWeightsFor bank.now weights.now }
{
    weights.len() == bank.grid() as usize && has_weight(weights)
}

/// The lines of what was assembled, or why there are none.
fn lines_of(
    alloc: Global,
    setting: &Setting,
    assembled: AssembledSeries,
) -> Result<Vec<u8>, SeriesEnd>
    requires problem { IsSeriesProblem (problem_of setting.now) }
    requires weights { AreWeightsFor setting.now.bank.now setting.now.weights.now }
    requires shown { IsShown (problem_of setting.now) assembled.tree
        setting.now.spec.now.base_budget assembled.outcome }
    requires is_true { IsTrueOutcome (problem_of setting.now) assembled.outcome }
    requires order { IsInOrder (problem_of setting.now) assembled.outcome }
    requires bound { IsBoundOf (problem_of setting.now) assembled.outcome assembled.bound }
    ensures lines { IfOk result (λ text. TellsSeries (problem_of setting.now) text.items) }
    ensures ends { IfErr result (IsEnd setting.now.bank.now setting.now.spec.now
        setting.now.weights.now setting.now.forms) }
{
    let AssembledSeries {
        outcome,
        tree,
        bound,
    } = assembled;
    // `nodes` gives that the tree has a spelling.
    let _nodes = tree.nodes();
    match outcome {
        SeriesOutcome::Found { forms, proved } => {
            let sets = forms.as_slice();
            let value = series_value(setting, sets);
            let text = series_text(alloc, setting, sets, value, proved, &tree, &bound)?;
            Ok(text)
        }
        SeriesOutcome::NoSeries => Err(SeriesEnd::NoSeries(tree)),
        SeriesOutcome::NoneFound => {
            let budget = setting.spec.base_budget();
            Err(SeriesEnd::NoneFound { budget, tree })
        }
    }
}

/// The lines of a series of so many forms of the plan, 1 to 4, assembled by these weights of the
/// grid's points within the base budget, or why there are none. A weight is at most 1,000.
pub fn series_lines(
    alloc: Global,
    bank: &Bank,
    spec: &Spec,
    forms: u8,
    weights: &[u32],
) -> Result<Vec<u8>, SeriesEnd>
    requires plan { IsPlanFor bank.now spec.now }
    requires some_forms { 0 < forms }
    requires few_forms { forms ≤ 4 }
    requires weights { (g : ℕ) → get_or weights.now g 0 ≤ 1000 }
    // The weights are the grid's, and the lines are those of a series with its value, its mark and
    // its tree.
    // Promise: The lines are those of a series of the plan, with its value, its mark and its tree;
    // the weights are the grid's
    ensures lines { IfOk result (λ text. AreWeightsFor bank.now weights.now
        × TellsSeries (series_problem bank.now spec.now weights.now forms) text.items) }
    // The weights are not the grid's; or there is no series; or the base budget was spent with none
    // found; or memory ran out.
    // Promise: Without lines, the weights are not the grid's; or there is no series, which the tree
    // shows; or the tree spends the base budget with none found; or memory ran out
    ensures ends { IfErr result (IsEnd bank.now spec.now weights.now forms) }
{
    if !are_weights_for(bank, weights) {
        return Err(SeriesEnd::Weights);
    }
    // `items` gives that the bank is one.
    let _items = bank.items();
    let budget = spec.base_budget() as u16;
    let assembled = assemble_series(alloc, bank, spec, weights, forms, budget)?;
    let setting = Setting {
        bank,
        spec,
        weights,
        forms,
    };
    lines_of(alloc, &setting, assembled)
}
