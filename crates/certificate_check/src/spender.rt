//! Whether a tree spends its node budget.

ghost use Rattle.std.specs.Prelude.{ℕ, suc, ◌↔◌, IsTrue, drop};
ghost use Rattle.std.specs.Option.{option_map};
ghost use Rattle.bank_tables.specs.Items.{has};
ghost use Rattle.certificate_model.specs.ProofTrees.{AreTrees};
ghost use Rattle.certificate_model.specs.Spending.{IsSpent};
ghost use Rattle.form_model.specs.Validity.{IsWellMade};
ghost use Rattle.constraint_model.specs.Views.{problem_of};
ghost use Rattle.certificate_check.specs.Cuts.{path_of};
ghost use Rattle.certificate_check.specs.Spends.{IsStartForm, IsSpending};

use crate::branch::below_stimulus;
use crate::cut::{Cut, below_item, root_cut};
use crate::shape::is_depth_first;
use crate::standing::standing_on;
use crate::unresolved::{spent_onward, start_form};
use bank_tables::ItemSet;
use certificate_model::Node;
use constraint_model::Problem;
use proof_tree::{Tree, has_open_leaf};

/// The number of the first node after the subtree at a node whose path is given; None if a node of
/// the subtree is not as in a spent tree.
fn spent_to(
    problem: &Problem,
    start: &Option<ItemSet>,
    tree: &Tree,
    at: u16,
    cut: &Cut,
) -> Option<u16>
    requires well_made { IsWellMade (problem_of problem.now) }
    requires start { IsStartForm (problem_of problem.now) (option_map has start.now) }
    requires tree { (wait : ℕ) × AreTrees (suc wait) (drop at tree.now.nodes) }
    ensures { IsSpending (problem_of problem.now) tree.now at (path_of cut.now) result }
{
    let node = tree.nodes()[at as usize];
    let standing = standing_on(problem, cut);
    let onward = spent_onward(problem, start, tree, &standing, &node)?;
    match node {
        Node::BranchItem(item) => {
            let left = below_item(cut, item, true);
            let next = spent_to(problem, start, tree, at + 1, &left)?;
            let right = below_item(cut, item, false);
            spent_to(problem, start, tree, next, &right)
        }
        Node::BranchStimulus(which) => {
            let left = below_stimulus(problem, &standing, which, true);
            let next = spent_to(problem, start, tree, at + 1, &left)?;
            let right = below_stimulus(problem, &standing, which, false);
            spent_to(problem, start, tree, next, &right)
        }
        Node::Fix(_, _) => spent_to(problem, start, tree, at + 1, &onward),
        Node::Bound(_) | Node::Ray(_) | Node::Count(_) | Node::Whole | Node::Open => Some(at + 1),
    }
}

/// Whether a tree spends its node budget: it has that many nodes, and its Open leaves are what a
/// search depth first left.
///
/// Takes no memory.
pub fn spent(problem: &Problem, tree: &Tree, budget: u16) -> bool
    requires { IsWellMade (problem_of problem.now) }
    // Promise: A tree spends its budget exactly where it has that many nodes, an Open leaf, no
    // branch after the first Open leaf, and an unresolved path at each branch and Open leaf. Each
    // branch is on what is free or open. On an unresolved path no row is impossible by counting,
    // and the plain bound is above a start that is a form
    ensures { IsTrue result ↔ IsSpent (problem_of problem.now) tree.now budget }
{
    let nodes = tree.nodes();
    if nodes.len() != budget as usize || !has_open_leaf(nodes) || !is_depth_first(nodes) {
        return false;
    }
    spent_to(problem, &start_form(problem), tree, 0, &root_cut(problem)).is_some()
}
