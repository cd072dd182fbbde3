//! Whether a series tree spends its node budget.

ghost use Rattle.std.specs.Prelude.{ℕ, suc, IsTrue, drop};
ghost use Rattle.series_model.specs.Series.{IsSeriesProblem};
ghost use Rattle.series_model.specs.SeriesTrees.{AreTrees};
ghost use Rattle.series_check.specs.Cuts.{problem_of, path_of};
ghost use Rattle.series_outcome.specs.Spending.{IsSpentNode, IsSpent};
ghost use Rattle.series_outcome.specs.Walks.{IsSpending};

use crate::counted::impossible;
use crate::shape::is_depth_first;
use series_check::{SeriesCut, Setting, is_sound, paths_below, root_cut};
use series_tree::{SeriesNode, SeriesTree, has_open_leaf, is_branch};

/// Whether no row is impossible by counting where a node is a branch or an Open leaf.
fn is_spent_node(setting: &Setting, cut: &SeriesCut, node: &SeriesNode) -> bool
    requires { IsSeriesProblem (problem_of setting.now) }
    ensures { IsTrue result → IsSpentNode (problem_of setting.now) (path_of cut.now) node.now }
{
    match node {
        SeriesNode::Branch { .. }
        | SeriesNode::Use { .. }
        | SeriesNode::Twin { .. }
        | SeriesNode::Open => impossible(setting, cut).is_none(),
        SeriesNode::Bound(_) | SeriesNode::Ray(_) | SeriesNode::Count { .. } | SeriesNode::Whole =>
            true,
    }
}

/// The number of the first node after the subtree at a node whose path is given; None if a row is
/// impossible by counting at a branch or an Open leaf of the subtree, or a branch is not sound.
fn spent_to(setting: &Setting, tree: &SeriesTree, at: u16, cut: &SeriesCut) -> Option<u16>
    requires problem { IsSeriesProblem (problem_of setting.now) }
    requires tree { (wait : ℕ) × AreTrees (suc wait) (drop at tree.now.nodes) }
    ensures { IsSpending (problem_of setting.now) tree.now at (path_of cut.now) result }
{
    let node = tree.nodes()[at as usize];
    if !is_spent_node(setting, cut, &node) {
        return None;
    }
    if !is_branch(&node) {
        return Some(at + 1);
    }
    if !is_sound(setting, &None, tree, cut, &node) {
        return None;
    }
    match paths_below(setting, &None, tree, cut, &node) {
        Some((left, right)) => {
            let next = spent_to(setting, tree, at + 1, &left)?;
            spent_to(setting, tree, next, &right)
        }
        None => None,
    }
}

/// Whether a tree spends its node budget: it has that many nodes, and its Open leaves are what a
/// search depth first left. Where a branch is not sound, the answer is no. Takes no memory.
pub fn is_spent(setting: &Setting, tree: &SeriesTree, budget: u16) -> bool
    requires { IsSeriesProblem (problem_of setting.now) }
    ensures { IsTrue result → IsSpent (problem_of setting.now) tree.now budget }
{
    let nodes = tree.nodes();
    if nodes.len() != budget as usize || !has_open_leaf(nodes) || !is_depth_first(nodes) {
        return false;
    }
    spent_to(setting, tree, 0, &root_cut()).is_some()
}
