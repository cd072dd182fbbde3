//! What a tree's nodes are: branches and leaves.

ghost use Rattle.std.specs.Prelude.{◌↔◌, ◌<◌, IsTrue};
ghost use Rattle.certificate_model.specs.Spending.{open_leaves, IsBranch};

use certificate_model::Node;

/// Whether a node has subtrees after it: two after a branch, one after a `Fix`.
pub fn is_branch(node: &Node) -> bool
    // Promise: Whether a node is a branch, and whether a leaf of some nodes is Open
    // - of `is_branch`, `has_open_leaf`
    // - by the clauses
    ensures { IsTrue result ↔ IsBranch node.now }
{
    match node {
        Node::BranchItem(_) | Node::BranchStimulus(_) | Node::Fix(_, _) => true,
        Node::Bound(_) | Node::Ray(_) | Node::Count(_) | Node::Whole | Node::Open => false,
    }
}

/// Whether a leaf is Open, so that the tree proves nothing there.
pub fn has_open_leaf(nodes: &[Node]) -> bool
    ensures { IsTrue result ↔ (0 < open_leaves nodes.now) }
{
    for node in nodes {
        if let Node::Open = node {
            return true;
        }
    }
    false
}
