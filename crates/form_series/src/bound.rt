//! A bound of all series, beside one that is not proved best.

ghost use Rattle.std.specs.Prelude.{IfSome};
ghost use Rattle.series_model.specs.Series.{IsSeriesProblem};
ghost use Rattle.series_check.specs.Cuts.{problem_of};
ghost use Rattle.form_series.specs.SeriesBounds.{BoundsSeries, IsBoundOf};

use bank_tables::ItemSet;
use series_check::{SeriesVerdict, Setting, check_series};
use series_outcome::SeriesOutcome;
use series_search::Bounded;
use series_tree::SeriesTree;

/// A number that the value of no series exceeds, and the tree that shows it.
#[derive(Debug, Drop)]
pub struct SeriesBound {
    pub value: u64,
    pub tree: SeriesTree,
}

/// The bound that a search gives, where the checker accepts it beside these forms.
fn accepted(setting: &Setting, forms: &[ItemSet], bound: Bounded) -> Option<SeriesBound>
    requires { IsSeriesProblem (problem_of setting.now) }
    ensures { IfSome result (BoundsSeries (problem_of setting.now) forms.now) }
{
    let Bounded { value, tree } = bound;
    let verdict = check_series(
        setting.bank,
        setting.spec,
        setting.weights,
        setting.forms,
        Some(forms),
        Some(value),
        &tree,
    );
    match verdict {
        SeriesVerdict::Optimal => Some(SeriesBound { value, tree }),
        SeriesVerdict::NoSeries | SeriesVerdict::Partial(_) | SeriesVerdict::Bad(_) => None,
    }
}

/// The bound that a search gives, where the series is not proved best and the checker accepts the
/// bound.
pub(crate) fn bound_shown(
    setting: &Setting,
    outcome: &SeriesOutcome,
    bound: Option<Bounded>,
) -> Option<SeriesBound>
    requires { IsSeriesProblem (problem_of setting.now) }
    ensures { IsBoundOf (problem_of setting.now) outcome.now result }
{
    let bound = bound?;
    match outcome {
        SeriesOutcome::Found { forms, proved } => {
            if *proved {
                return None;
            }
            accepted(setting, forms.as_slice(), bound)
        }
        SeriesOutcome::NoSeries | SeriesOutcome::NoneFound => None,
    }
}
