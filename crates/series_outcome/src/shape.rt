//! The shape of a tree that was searched depth first.

ghost use Rattle.std.specs.Prelude.{◌↔◌, IsTrue};
ghost use Rattle.series_outcome.specs.Spending.{IsDepthFirst};

use series_tree::{SeriesNode, is_branch};

/// Whether there is no branch after the first Open leaf.
pub fn is_depth_first(nodes: &[SeriesNode]) -> bool
    ensures { IsTrue result ↔ IsDepthFirst nodes.now }
{
    let mut found = false;
    for node in nodes {
        if found && is_branch(node) {
            return false;
        }
        if let SeriesNode::Open = node {
            found = true;
        }
    }
    true
}
