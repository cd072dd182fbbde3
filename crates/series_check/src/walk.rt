//! The walk through a series tree.

ghost use Rattle.std.specs.Prelude.{ℕ, suc, ◌≤◌, drop};
ghost use Rattle.series_model.specs.Series.{IsSeriesProblem};
ghost use Rattle.series_model.specs.SeriesTrees.{AreTrees};
ghost use Rattle.series_check.specs.Cuts.{problem_of, path_of};
ghost use Rattle.series_check.specs.Walks.{IsWalk};

use crate::cut::SeriesCut;
use crate::node::{is_sound, open_leaf, paths_below};
use crate::setting::Setting;
use series_tree::SeriesTree;

/// Where a walk goes on: the number of the next node, and the Open leaves so far.
#[derive(Clone, Copy)]
pub struct Walked {
    pub next: u16,
    pub open_leaves: u16,
}

/// Walks through the subtree at a node whose path is given; an error is the number of the first
/// unsound node.
pub fn walk(
    setting: &Setting,
    bar: &Option<u64>,
    tree: &SeriesTree,
    at: u16,
    open_leaves: u16,
    cut: &SeriesCut,
) -> Result<Walked, u16>
    requires problem { IsSeriesProblem (problem_of setting.now) }
    requires tree { (wait : ℕ) × AreTrees (suc wait) (drop at tree.now.nodes) }
    requires few { open_leaves ≤ at }
    ensures { IsWalk (problem_of setting.now) bar.now tree.now at open_leaves (path_of cut.now)
        result }
{
    let node = tree.nodes()[at as usize];
    if !is_sound(setting, bar, tree, cut, &node) {
        return Err(at);
    }
    match paths_below(setting, bar, tree, cut, &node) {
        Some((left, right)) => {
            let walked = walk(setting, bar, tree, at + 1, open_leaves, &left)?;
            walk(setting, bar, tree, walked.next, walked.open_leaves, &right)
        }
        None => Ok(Walked {
            next: at + 1,
            open_leaves: open_leaves + open_leaf(&node),
        }),
    }
}
