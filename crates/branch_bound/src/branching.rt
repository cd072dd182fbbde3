//! Branches, and the cuts of their two sides.

ghost use Rattle.std.specs.Prelude.{◌≡◌, ◌↔◌, IsTrue, None};
ghost use Rattle.certificate_model.specs.Paths.{Path};
ghost use Rattle.form_model.specs.Validity.{IsWellMade};
ghost use Rattle.certificate_model.specs.Verdicts.{only_candidate};
ghost use Rattle.constraint_model.specs.Views.{problem_of};
ghost use Rattle.lagrange_bound.specs.Cuts.{IsCut, IsCutOf};
ghost use Rattle.branch_bound.specs.Searches.{IsBranchOn, side_of};

use certificate_model::Node;
use constraint_model::Problem;
use lagrange_bound::Cut;

/// Whether a node is a branch on a free item or an open stimulus.
pub fn is_branch_on(problem: &Problem, cut: &Cut, node: &Node) -> bool
    requires { IsWellMade (problem_of problem.now) }
    ensures { (p : Path) → IsCutOf (problem_of problem.now) p cut.now →
        IsTrue result ↔ IsBranchOn (problem_of problem.now) p node.now }
{
    match node {
        Node::BranchItem(item) => cut.free.has(*item),
        Node::BranchStimulus(stimulus) => cut.opened.has(u16::from(*stimulus)),
        Node::Bound(_)
        | Node::Ray(_)
        | Node::Count(_)
        | Node::Whole
        | Node::Open
        | Node::Fix(_, _) => false,
    }
}

/// One side of a branch: with the item or stimulus, or without it.
pub fn side(problem: &Problem, cut: &Cut, branch: &Node, with: bool) -> Cut
    requires well_made { IsWellMade (problem_of problem.now) }
    requires cut { IsCut (problem_of problem.now) cut.now }
    requires branch { (p : Path) → IsCutOf (problem_of problem.now) p cut.now →
        IsBranchOn (problem_of problem.now) p branch.now }
    ensures cut { IsCut (problem_of problem.now) result }
    ensures paths { (p : Path) → IsCutOf (problem_of problem.now) p cut.now →
        IsCutOf (problem_of problem.now) (side_of
        (problem_of problem.now) p branch.now with) result }
{
    match branch {
        Node::BranchItem(item) => cut.with_item(problem, *item, with),
        Node::BranchStimulus(stimulus) => cut.with_stimulus(problem, *stimulus, with),
        Node::Bound(_)
        | Node::Ray(_)
        | Node::Count(_)
        | Node::Whole
        | Node::Open
        | Node::Fix(_, _) => *cut,
    }
}

/// A branch on the lowest open stimulus, or where none is open on the lowest free item.
pub fn branching(problem: &Problem, cut: &Cut) -> Node
    requires well_made { IsWellMade (problem_of problem.now) }
    requires cut { IsCut (problem_of problem.now) cut.now }
    requires several { (p : Path) → IsCutOf (problem_of problem.now) p cut.now →
        only_candidate (problem_of problem.now) p ≡ None }
    ensures { (p : Path) → IsCutOf (problem_of problem.now) p cut.now →
        IsBranchOn (problem_of problem.now) p result }
{
    if let Some(stimulus) = cut.opened.first() {
        return Node::BranchStimulus(stimulus as u8);
    }
    match cut.free.first() {
        Some(item) => Node::BranchItem(item),
        None => unreachable!(),
    }
}
