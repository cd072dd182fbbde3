//! The walk through a proof tree.

ghost use Rattle.std.specs.Prelude.{ℕ, suc, ◌≤◌, drop};
ghost use Rattle.std.specs.Option.{option_map};
ghost use Rattle.bank_tables.specs.Items.{has};
ghost use Rattle.certificate_model.specs.ProofTrees.{AreTrees};
ghost use Rattle.form_model.specs.Validity.{IsWellMade};
ghost use Rattle.constraint_model.specs.Views.{problem_of};
ghost use Rattle.certificate_check.specs.Cuts.{path_of, IsStanding};
ghost use Rattle.certificate_check.specs.Fixes.{IsJudged};
ghost use Rattle.certificate_check.specs.Walks.{IsWalk};

use crate::branch::below_stimulus;
use crate::cut::{Cut, below_item};
use crate::fix::fix_below;
use crate::node::node_fault;
use crate::standing::{Standing, standing_on};
use bank_tables::ItemSet;
use certificate_model::{Node, Reason};
use constraint_model::Problem;
use proof_tree::Tree;

/// Where a walk goes on: the number of the next node, and the Open leaves so far.
#[derive(Clone, Copy)]
pub struct Walked {
    pub next: u16,
    pub open_leaves: u16,
}

/// The first unsound node.
#[derive(Clone, Copy)]
pub struct Unsound {
    pub node: u16,
    pub reason: Reason,
}

/// The path that a node goes on with, if it is sound: a Fix its own, any other the path that leads
/// to it.
#[inline(never)]
fn judge(
    problem: &Problem,
    form: &Option<ItemSet>,
    tree: &Tree,
    at: u16,
    standing: &Standing,
    node: &Node,
) -> Result<Cut, Unsound>
    requires well_made { IsWellMade (problem_of problem.now) }
    requires standing { IsStanding (problem_of problem.now) standing.now }
    ensures { IsJudged (problem_of problem.now) (option_map has form.now) tree.now at
        (path_of standing.now.cut) node.now result }
{
    if let Node::Fix(which, goal) = node {
        return match fix_below(problem, form, tree, standing, *which, *goal) {
            Ok(below) => Ok(below),
            Err(reason) => Err(Unsound { node: at, reason }),
        };
    }
    match node_fault(problem, form, tree, standing, node) {
        None => Ok(standing.cut),
        Some(reason) => Err(Unsound { node: at, reason }),
    }
}

/// Walks through the subtree at a node whose path is given.
pub fn walk(
    problem: &Problem,
    form: &Option<ItemSet>,
    tree: &Tree,
    at: u16,
    open_leaves: u16,
    cut: &Cut,
) -> Result<Walked, Unsound>
    requires well_made { IsWellMade (problem_of problem.now) }
    requires tree { (wait : ℕ) × AreTrees (suc wait) (drop at tree.now.nodes) }
    requires few { open_leaves ≤ at }
    ensures { IsWalk (problem_of problem.now) (option_map has form.now) tree.now at open_leaves
        (path_of cut.now) result }
{
    let node = tree.nodes()[at as usize];
    let standing = standing_on(problem, cut);
    let onward = judge(problem, form, tree, at, &standing, &node)?;
    match node {
        Node::BranchItem(item) => {
            let left = below_item(cut, item, true);
            let walked = walk(problem, form, tree, at + 1, open_leaves, &left)?;
            let right = below_item(cut, item, false);
            walk(problem, form, tree, walked.next, walked.open_leaves, &right)
        }
        Node::BranchStimulus(which) => {
            let left = below_stimulus(problem, &standing, which, true);
            let walked = walk(problem, form, tree, at + 1, open_leaves, &left)?;
            let right = below_stimulus(problem, &standing, which, false);
            walk(problem, form, tree, walked.next, walked.open_leaves, &right)
        }
        Node::Fix(_, _) => walk(problem, form, tree, at + 1, open_leaves, &onward),
        Node::Open => Ok(Walked {
            next: at + 1,
            open_leaves: open_leaves + 1,
        }),
        Node::Bound(_) | Node::Ray(_) | Node::Count(_) | Node::Whole => Ok(Walked {
            next: at + 1,
            open_leaves,
        }),
    }
}
