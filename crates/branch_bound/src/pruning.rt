//! Whether a tree is pruned by counting.

ghost use Rattle.std.specs.Prelude.{ℕ, suc, ◌↔◌, IsTrue, drop};
ghost use Rattle.certificate_model.specs.Paths.{Path};
ghost use Rattle.certificate_model.specs.ProofTrees.{AreTrees};
ghost use Rattle.certificate_model.specs.Pruning.{IsPruned};
ghost use Rattle.form_model.specs.Validity.{IsWellMade};
ghost use Rattle.constraint_model.specs.Views.{problem_of};
ghost use Rattle.lagrange_bound.specs.Cuts.{IsCut, IsCutOf};
ghost use Rattle.branch_bound.specs.Prunings.{IsCountOf, IsPruning};

use crate::branching::{is_branch_on, side};
use constraint_model::Problem;
use lagrange_bound::{Cut, impossible};
use proof_tree::{Node, Tree, is_branch};

/// Whether a node is the Count leaf of the row, or there is no row.
fn is_count_of(row: Option<u8>, node: &Node) -> bool
    ensures { IsTrue result ↔ IsCountOf row node.now }
{
    match row {
        Some(row) => match node {
            Node::Count(which) => *which == row,
            _ => false,
        },
        None => true,
    }
}

/// The number of the first node after the subtree at a node whose path is given. None if a path of
/// the subtree goes on past a row that is impossible by counting, if a branch is on an item that
/// isn't free or a stimulus that isn't open, or if a node fixes items: no search makes one.
fn pruned_to(problem: &Problem, tree: &Tree, at: u16, cut: &Cut) -> Option<u16>
    requires well_made { IsWellMade (problem_of problem.now) }
    requires cut { IsCut (problem_of problem.now) cut.now }
    requires tree { (wait : ℕ) × AreTrees (suc wait) (drop at tree.now.nodes) }
    ensures { (p : Path) → IsCutOf (problem_of problem.now) p cut.now →
        IsPruning (problem_of problem.now) tree.now at p result }
{
    let node = tree.nodes()[at as usize];
    if !is_count_of(impossible(problem, cut), &node) {
        return None;
    }
    if !is_branch(&node) {
        return Some(at + 1);
    }
    if !is_branch_on(problem, cut, &node) {
        return None;
    }
    let left = side(problem, cut, &node, true);
    let next = pruned_to(problem, tree, at + 1, &left)?;
    let right = side(problem, cut, &node, false);
    pruned_to(problem, tree, next, &right)
}

/// Whether no path of a tree goes on past a row that is impossible by counting: there it ends in
/// the Count leaf of the lowest such row.
pub fn is_pruned(problem: &Problem, tree: &Tree) -> bool
    requires { IsWellMade (problem_of problem.now) }
    ensures { IsTrue result → IsPruned (problem_of problem.now) tree.now }
{
    let _ = tree.nodes();
    pruned_to(problem, tree, 0, &Cut::root(problem)).is_some()
}
