//! What a tree's nodes are: branches and leaves.

ghost use Rattle.std.specs.Prelude.{◌↔◌, ◌<◌, IsTrue};
ghost use Rattle.series_tree.specs.Shape.{open_leaves, IsBranch};

use series_model::SeriesNode;

/// Whether a node is a branch, which has two subtrees after it.
pub fn is_branch(node: &SeriesNode) -> bool
    // Promise: Whether a node is a branch, whether a leaf of some nodes is Open, and whether a
    // vector names a side from 2,304 on
    // - of `is_branch`, `has_open_leaf`, `names_pool`
    // - by the clauses
    ensures { IsTrue result ↔ IsBranch node.now }
{
    match node {
        SeriesNode::Branch { .. } | SeriesNode::Use { .. } | SeriesNode::Twin { .. } => true,
        SeriesNode::Bound(_)
        | SeriesNode::Ray(_)
        | SeriesNode::Count { .. }
        | SeriesNode::Whole
        | SeriesNode::Open => false,
    }
}

/// Whether a leaf is Open, so that the tree proves nothing there.
pub fn has_open_leaf(nodes: &[SeriesNode]) -> bool
    ensures { IsTrue result ↔ (0 < open_leaves nodes.now) }
{
    for node in nodes {
        if let SeriesNode::Open = node {
            return true;
        }
    }
    false
}
