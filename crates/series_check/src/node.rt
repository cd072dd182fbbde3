//! One node of a series tree.

ghost use Rattle.std.specs.Prelude.{◌≡◌, ◌↔◌, ℕ, ◌+◌, ◌≤◌, ◌||◌, length, Option, IsTrue};
ghost use Rattle.form_model.specs.Forms.{stimuli_of};
ghost use Rattle.series_model.specs.declared.node.SeriesNode.TheVariants.{Count};
ghost use Rattle.series_model.specs.SeriesTrees.{Certificate};
ghost use Rattle.series_model.specs.Series.{IsSeriesProblem};
ghost use Rattle.series_model.specs.SeriesPaths.{is_use_lost, are_uses_many};
ghost use Rattle.series_model.specs.SeriesVerdicts.{IsFormBranch, IsSound, open_leaf};
ghost use Rattle.series_check.specs.Cuts.{problem_of, path_of};
ghost use Rattle.series_check.specs.Walks.{AreBelow};

use crate::counting::is_impossible;
use crate::cut::{SeriesCut, below_form};
use crate::leaf::{bound_is_sound, is_whole, ray_is_sound, whole_is_sound};
use crate::setting::Setting;
use crate::standing::standing_on;
use crate::twins::without_twins;
use crate::used::{are_uses_impossible, below_use, may_be_used};
use series_model::SeriesNode;
use series_tree::SeriesTree;

/// Whether an item is free in a form of the series.
fn is_free(setting: &Setting, cut: &SeriesCut, form: u8, item: u16) -> bool
    requires { IsSeriesProblem (problem_of setting.now) }
    ensures { IsTrue result ↔ IsFormBranch (problem_of setting.now) (path_of cut.now) form item }
{
    form < setting.forms && standing_on(setting, cut, form).free.has(item)
}

/// Whether a row with this number is one of a form, and the used items leave no series.
fn are_uses_counted_out(setting: &Setting, cut: &SeriesCut, row: u8) -> bool
    requires { IsSeriesProblem (problem_of setting.now) }
    ensures { IsTrue result ↔ ((row ≤ length setting.now.spec.now.rows
        + stimuli_of setting.now.bank.now) × IsTrue (is_use_lost (problem_of setting.now)
        (path_of cut.now) || are_uses_many (problem_of setting.now) (path_of cut.now))) }
{
    let last = setting.spec.rows().len() + setting.bank.stimuli() as usize;
    row as usize <= last && are_uses_impossible(setting, cut)
}

/// Whether a row of a form of the series is impossible by counting, or the used items are.
fn is_counted_out(setting: &Setting, cut: &SeriesCut, form: u8, row: u8) -> bool
    requires { IsSeriesProblem (problem_of setting.now) }
    ensures { (bar : Option ℕ) (T : Certificate) → (IsTrue result
        ↔ IsSound (problem_of setting.now) bar T (path_of cut.now) (Count form row)) }
{
    form < setting.forms
        && (is_impossible(setting, &standing_on(setting, cut, form), row)
            || are_uses_counted_out(setting, cut, row))
}

/// Whether a node is sound.
#[inline(never)]
pub fn is_sound(
    setting: &Setting,
    bar: &Option<u64>,
    tree: &SeriesTree,
    cut: &SeriesCut,
    node: &SeriesNode,
) -> bool
    requires { IsSeriesProblem (problem_of setting.now) }
    // Promise: A vector that names a side from 2,304 on is judged by the rule of the pool, any
    // other by that of each form, each exactly where the definition has it; one with a threshold is
    // unsound
    // - by the clause (`NamesOnlySides`, `ClosesByBound`, `MaximumIsBelow`)
    ensures { IsTrue result
        ↔ IsSound (problem_of setting.now) bar.now tree.now (path_of cut.now) node.now }
{
    match node {
        SeriesNode::Branch { form, item } | SeriesNode::Twin { form, item } => {
            is_free(setting, cut, *form, *item)
        }
        SeriesNode::Bound(which) => bound_is_sound(setting, bar, tree, cut, *which),
        SeriesNode::Ray(which) => ray_is_sound(setting, bar, tree, cut, *which),
        SeriesNode::Count { form, row } => is_counted_out(setting, cut, *form, *row),
        SeriesNode::Whole => whole_is_sound(setting, bar, tree, cut),
        SeriesNode::Open => !is_whole(setting, cut),
        SeriesNode::Use { item } => may_be_used(setting, cut, *item),
    }
}

/// The paths below a sound node, if it is a branch: left, right.
pub fn paths_below(
    setting: &Setting,
    bar: &Option<u64>,
    tree: &SeriesTree,
    cut: &SeriesCut,
    node: &SeriesNode,
) -> Option<(SeriesCut, SeriesCut)>
    requires problem { IsSeriesProblem (problem_of setting.now) }
    requires sound { IsSound (problem_of setting.now) bar.now tree.now (path_of cut.now) node.now }
    ensures { AreBelow (problem_of setting.now) (path_of cut.now) node.now result }
{
    match node {
        SeriesNode::Branch { form, item } => {
            prove!(setting.bank.items() <= 512);
            Some((
                below_form(cut, *form, *item, true),
                below_form(cut, *form, *item, false),
            ))
        }
        SeriesNode::Twin { form, item } => {
            prove!(setting.bank.items() <= 512);
            Some((
                below_form(cut, *form, *item, true),
                without_twins(setting, cut, *form, *item),
            ))
        }
        SeriesNode::Use { item } => {
            prove!(setting.bank.items() <= 512);
            Some((
                below_use(setting, cut, *item, true),
                below_use(setting, cut, *item, false),
            ))
        }
        _ => None,
    }
}

/// How many Open leaves a node is.
pub fn open_leaf(node: &SeriesNode) -> u16
    ensures { result ≡ open_leaf node.now }
{
    match node {
        SeriesNode::Open => 1,
        _ => 0,
    }
}
