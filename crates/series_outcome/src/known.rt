//! The best series that a search knows.

ghost use Rattle.std.specs.Prelude.{◌≡◌, ◌<◌, ℕ, [], length, get_or, IsTrue, IsFalse, Some, None};
ghost use Rattle.series_check.specs.Cuts.{problem_of};
ghost use Rattle.series_model.specs.Series.{IsSeriesProblem, IsSeriesList, IsValue, forms_of};
ghost use Rattle.series_model.specs.SeriesVerdicts.{IsSettled};
ghost use Rattle.series_outcome.specs.Searches.{IsKnown, value_known, IsAsGood, IsAsGoodAs};

use bank_tables::{ItemSet, List};
use series_check::{Setting, is_series, series_value};

/// The sets of a series, by form, and its value. Those past the last form count for nothing.
#[derive(Clone, Copy)]
pub struct Known {
    pub sets: [ItemSet; 4],
    pub value: u64,
}

/// Whether a value is greater than that of the series kept, if one is.
fn exceeds(value: u64, kept: &Option<Known>) -> bool
    ensures greater { IsTrue result → IsAsGood (value_known kept.now) (Some value) }
    ensures not_greater { IsFalse result → IsAsGood (Some value) (value_known kept.now) }
{
    match kept {
        Some(known) => known.value < value,
        None => true,
    }
}

/// The sets, where they are a series of greater value than the one kept, else the one kept.
pub fn better(setting: &Setting, kept: Option<Known>, sets: &[ItemSet; 4]) -> Option<Known>
    requires problem { IsSeriesProblem (problem_of setting.now) }
    requires known { IsKnown (problem_of setting.now) kept }
    ensures known { IsKnown (problem_of setting.now) result }
    ensures no_worse { IsAsGood (value_known kept) (value_known result) }
    ensures settled { IsSettled (problem_of setting.now) (value_known result) (forms_of sets.now) }
{
    if !is_series(setting, sets) {
        return kept;
    }
    let value = series_value(setting, sets);
    if !exceeds(value, &kept) {
        return kept;
    }
    Some(Known { sets: *sets, value })
}

/// The set at a place of a list; one without items past its end.
fn set_at(sets: &[ItemSet], at: usize) -> ItemSet
    ensures { at < length sets.now → result ≡ get_or sets.now at [] }
{
    match sets.get(at) {
        Some(items) => *items,
        None => ItemSet::empty(),
    }
}

/// The sets of a list by form, if they are a series.
fn known_list(setting: &Setting, sets: &[ItemSet]) -> Option<Known>
    requires problem { IsSeriesProblem (problem_of setting.now) }
    ensures known { IsKnown (problem_of setting.now) result }
    ensures no_worse { (V : ℕ) → IsSeriesList (problem_of setting.now) sets.now
        → IsValue (problem_of setting.now) (forms_of sets.now) V
        → IsAsGood (Some V) (value_known result) }
{
    let by_form = [
        set_at(sets, 0),
        set_at(sets, 1),
        set_at(sets, 2),
        set_at(sets, 3),
    ];
    better(setting, None, &by_form)
}

/// The sets that a search gave and their value, if they are a series.
pub fn known_series(setting: &Setting, forms: &Option<List<ItemSet>>) -> Option<Known>
    requires problem { IsSeriesProblem (problem_of setting.now) }
    // Promise: Forms that a search gave are known with their value, if they are a series
    // - by `known`, `no_worse`
    ensures known { IsKnown (problem_of setting.now) result }
    ensures no_worse { IsAsGoodAs (problem_of setting.now) forms.now (value_known result) }
{
    match forms {
        Some(forms) => known_list(setting, forms.as_slice()),
        None => None,
    }
}
