//! The shape of a tree that was searched depth first.

ghost use Rattle.std.specs.Prelude.{◌↔◌, IsTrue};
ghost use Rattle.certificate_model.specs.Spending.{IsDepthFirst};

use proof_tree::{Node, is_branch};

/// Whether there is no branch after the first Open leaf.
pub fn is_depth_first(nodes: &[Node]) -> bool
    ensures { IsTrue result ↔ IsDepthFirst nodes.now }
{
    let mut found = false;
    for node in nodes {
        if found && is_branch(node) {
            return false;
        }
        if let Node::Open = node {
            found = true;
        }
    }
    true
}
