//! The tests that let in what a search gives.

ghost use Rattle.std.specs.Prelude.{IfSome, Some, None};
ghost use Rattle.std.specs.Option.{option_copied};
ghost use Rattle.series_model.specs.Series.{IsSeriesProblem};
ghost use Rattle.series_model.specs.SeriesVerdicts.{IsSeriesVerdict};
ghost use Rattle.series_check.specs.Cuts.{problem_of};
ghost use Rattle.series_outcome.specs.Assemblies.{IsShown, KeepsSeries};

use crate::outcome::SeriesOutcome;
use crate::spending::is_spent;
use bank_tables::{ItemSet, List};
use series_check::{SeriesVerdict, Setting, check_series};
use series_tree::SeriesTree;

/// The verdict of the checker on a tree with a series or none.
fn verdict(setting: &Setting, series: Option<&[ItemSet]>, tree: &SeriesTree) -> SeriesVerdict
    requires { IsSeriesProblem (problem_of setting.now) }
    ensures { IsSeriesVerdict (problem_of setting.now) (option_copied series.entry) None tree.now
        result }
{
    check_series(
        setting.bank,
        setting.spec,
        setting.weights,
        setting.forms,
        series,
        None,
        tree,
    )
}

/// The outcome that a tree shows with a series, within a budget of nodes.
fn shown_with(
    setting: &Setting,
    forms: List<ItemSet>,
    tree: &SeriesTree,
    budget: u16,
) -> Option<SeriesOutcome>
    requires { IsSeriesProblem (problem_of setting.now) }
    ensures shown { IfSome result (IsShown (problem_of setting.now) tree.now budget) }
    ensures keeps { IfSome result (KeepsSeries (problem_of setting.now) (Some forms)) }
{
    match verdict(setting, Some(forms.as_slice()), tree) {
        SeriesVerdict::Optimal => Some(SeriesOutcome::Found {
            forms,
            proved: true,
        }),
        SeriesVerdict::Partial(_) => {
            if !is_spent(setting, tree, budget) {
                return None;
            }
            Some(SeriesOutcome::Found {
                forms,
                proved: false,
            })
        }
        SeriesVerdict::NoSeries | SeriesVerdict::Bad(_) => None,
    }
}

/// The outcome that a tree shows without a series.
fn shown_without(setting: &Setting, tree: &SeriesTree, budget: u16) -> Option<SeriesOutcome>
    requires { IsSeriesProblem (problem_of setting.now) }
    ensures { IfSome result (IsShown (problem_of setting.now) tree.now budget) }
{
    match verdict(setting, None, tree) {
        SeriesVerdict::NoSeries => Some(SeriesOutcome::NoSeries),
        SeriesVerdict::Partial(_) => {
            if !is_spent(setting, tree, budget) {
                return None;
            }
            Some(SeriesOutcome::NoneFound)
        }
        SeriesVerdict::Optimal | SeriesVerdict::Bad(_) => None,
    }
}

/// The outcome that the series or none and the tree of a search show, where they pass every test.
pub fn outcome_shown(
    setting: &Setting,
    forms: Option<List<ItemSet>>,
    tree: &SeriesTree,
    budget: u16,
) -> Option<SeriesOutcome>
    requires { IsSeriesProblem (problem_of setting.now) }
    // Promise: Forms and a tree are let in only where the checker's verdict on the tree is that of
    // the outcome; undecided, the tree spends the budget
    ensures shown { IfSome result (IsShown (problem_of setting.now) tree.now budget) }
    // Promise: What is let in is no worse than the forms given, where they are a series
    ensures keeps { IfSome result (KeepsSeries (problem_of setting.now) forms) }
{
    match forms {
        Some(forms) => shown_with(setting, forms, tree, budget),
        None => shown_without(setting, tree, budget),
    }
}
