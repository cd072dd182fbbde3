//! The verdict on a series tree.

ghost use Rattle.std.specs.Prelude.{◌≡◌, ℕ, Some, None, IsSomeAnd};
ghost use Rattle.std.specs.Option.{option_copied};
ghost use Rattle.series_model.specs.Series.{IsSeriesProblem, NoneAbove, BestSeries, HasNoSeries, forms_of};
ghost use Rattle.series_model.specs.SeriesVerdicts.{verdict_of, IsSeriesVerdict};
ghost use Rattle.series_check.specs.Cuts.{problem_of};
ghost use Rattle.series_check.specs.Answers.{IsJudged};

use crate::cut::root_cut;
use crate::setting::Setting;
use crate::value::{is_series_list, value};
use crate::walk::walk;
use bank_tables::{Bank, ItemSet};
use constraint_model::Spec;
use series_model::SeriesVerdict;
use series_tree::SeriesTree;

/// The verdict where all nodes are sound.
fn verdict_of(bar: &Option<u64>, open_leaves: u16) -> SeriesVerdict
    ensures { result ≡ verdict_of bar.now open_leaves }
{
    if open_leaves > 0 {
        return SeriesVerdict::Partial(open_leaves);
    }
    match bar {
        Some(_) => SeriesVerdict::Optimal,
        None => SeriesVerdict::NoSeries,
    }
}

/// What the nodes show, with the number above which no series is to be, or none.
fn judged(setting: &Setting, bar: &Option<u64>, tree: &SeriesTree) -> SeriesVerdict
    requires { IsSeriesProblem (problem_of setting.now) }
    ensures { IsJudged (problem_of setting.now) bar.now tree.now result }
{
    let _ = tree.nodes();
    match walk(setting, bar, tree, 0, 0, &root_cut()) {
        Ok(walked) => verdict_of(bar, walked.open_leaves),
        Err(unsound) => SeriesVerdict::Bad(unsound),
    }
}

/// The verdict with a series.
fn judged_with(
    setting: &Setting,
    sets: &[ItemSet],
    at_most: Option<u64>,
    tree: &SeriesTree,
) -> SeriesVerdict
    requires { IsSeriesProblem (problem_of setting.now) }
    ensures { IsSeriesVerdict (problem_of setting.now) (Some sets.now) at_most tree.now result }
{
    if !is_series_list(setting, sets) {
        return SeriesVerdict::Bad(0);
    }
    let bar = match at_most {
        Some(top) => top,
        None => value(setting, sets),
    };
    judged(setting, &Some(bar), tree)
}

/// What a series tree shows, with a series or none: `Optimal`, no series has a greater value, or,
/// where a number is given in place of the value, none has a value above that number; `NoSeries`,
/// there is no series.
///
/// The weights are those of the grid's points, each at most 1,000 and one above 0; `forms` is 1 to
/// 4. Takes no memory.
pub fn check_series(
    bank: &Bank,
    spec: &Spec,
    weights: &[u32],
    forms: u8,
    series: Option<&[ItemSet]>,
    at_most: Option<u64>,
    tree: &SeriesTree,
) -> SeriesVerdict
    requires { IsSeriesProblem
        (record { bank = bank.now; plan = spec.now; weights = weights.now; forms = forms }) }
    // Promise: The verdict on a series tree is the one by definition: the sets are tested first,
    // then the nodes in preorder; the first unsound node is named, else the Open leaves are counted
    ensures verdict { IsSeriesVerdict
        (record { bank = bank.now; plan = spec.now; weights = weights.now; forms = forms })
        (option_copied series.entry) at_most tree.now result }
    // No series has a greater value.
    // Promise: Where the verdict is Optimal, the sets are a series, and no series has a greater
    // value
    ensures best { result ≡ SeriesVerdict.Optimal → at_most ≡ None
        → IsSomeAnd (option_copied series.entry) (λ sets. BestSeries
        (record { bank = bank.now; plan = spec.now; weights = weights.now; forms = forms })
        (forms_of sets)) }
    // No series has a value above the number.
    // Promise: Where it is Optimal for a number in place of the value, no series has a value above
    // that number
    ensures at_most { (top : ℕ) → result ≡ SeriesVerdict.Optimal → at_most ≡ Some top
        → NoneAbove
        (record { bank = bank.now; plan = spec.now; weights = weights.now; forms = forms }) top }
    // There is no series.
    // Promise: Where the verdict is NoSeries, there is no series
    ensures none { result ≡ SeriesVerdict.NoSeries → HasNoSeries
        (record { bank = bank.now; plan = spec.now; weights = weights.now; forms = forms }) }
{
    let setting = Setting {
        bank,
        spec,
        weights,
        forms,
    };
    match series {
        Some(sets) => judged_with(&setting, sets, at_most, tree),
        None => judged(&setting, &None, tree),
    }
}
