//! Paths that wait for their subtrees.

ghost use Rattle.std.specs.Prelude.{OnOk, IfSome};
ghost use Rattle.form_model.specs.Validity.{IsWellMade};
ghost use Rattle.constraint_model.specs.Views.{problem_of};
ghost use Rattle.lagrange_bound.specs.Cuts.{IsCut};
ghost use Rattle.search_paths.specs.States.{AreStates};

use certificate_model::Node;
use constraint_model::Problem;
use lagrange_bound::Cut;
use proof_tree::{Memory, is_branch};

/// A path that waits for its subtree: how deep it is, and the place of the vector that the steps
/// there begin with.
#[derive(Debug, Drop)]
pub struct Waiting {
    pub cut: Cut,
    pub depth: u32,
    pub hand: usize,
}

/// Lets a path wait, before all others.
// Promise: Each path that waits for its subtree has the state of some path of branches
// - of `wait`, `next_path`, `push_below`
// - by `AreStates`, `IsCut`
pub fn wait(problem: &Problem, waiting: &mut Vec<Waiting>, path: Waiting) -> Result<(), Memory>
    requires cut { IsCut (problem_of problem.now) path.cut }
    requires waiting { AreStates (problem_of problem.now) waiting.old.items }
    ensures { OnOk result (AreStates (problem_of problem.now) waiting.new.items) }
{
    let _ = &problem.given;
    waiting.push(path)?;
    Ok(())
}

/// The path whose turn it is.
pub fn next_path(problem: &Problem, waiting: &mut Vec<Waiting>) -> Option<Waiting>
    requires { AreStates (problem_of problem.now) waiting.old.items }
    ensures path { IfSome result (λ path. IsCut (problem_of problem.now) path.cut) }
    ensures waiting { AreStates (problem_of problem.now) waiting.new.items }
{
    let _ = &problem.given;
    waiting.pop()
}

/// The path below a branch, on its first side or the other; the path itself where it can't branch
/// so.
// Promise: The path below a branch has such a state
// - by `IsCut`
pub fn below(problem: &Problem, cut: &Cut, node: &Node, first: bool) -> Cut
    requires well_made { IsWellMade (problem_of problem.now) }
    requires cut { IsCut (problem_of problem.now) cut.now }
    ensures { IsCut (problem_of problem.now) result }
{
    match node {
        Node::BranchItem(item) => {
            if cut.free.has(*item) {
                cut.with_item(problem, *item, first)
            } else {
                *cut
            }
        }
        Node::BranchStimulus(stimulus) => {
            if cut.opened.has(*stimulus as u16) {
                cut.with_stimulus(problem, *stimulus, first)
            } else {
                *cut
            }
        }
        _ => *cut,
    }
}

/// The places of the vectors that the steps on both sides of a branch begin with.
#[derive(Clone, Copy, Debug)]
pub struct Sides {
    pub first: usize,
    pub other: usize,
}

/// Lets the paths below a node wait, if it is a branch, the first side before the other.
pub fn push_below(
    problem: &Problem,
    waiting: &mut Vec<Waiting>,
    path: &Waiting,
    node: &Node,
    hands: Sides,
) -> Result<(), Memory>
    requires well_made { IsWellMade (problem_of problem.now) }
    requires cut { IsCut (problem_of problem.now) path.now.cut }
    requires waiting { AreStates (problem_of problem.now) waiting.old.items }
    ensures { OnOk result (AreStates (problem_of problem.now) waiting.new.items) }
{
    if !is_branch(node) {
        return Ok(());
    }
    let depth = path.depth.saturating_add(1);
    let other = Waiting {
        cut: below(problem, &path.cut, node, false),
        depth,
        hand: hands.other,
    };
    wait(problem, waiting, other)?;
    let first = Waiting {
        cut: below(problem, &path.cut, node, true),
        depth,
        hand: hands.first,
    };
    wait(problem, waiting, first)
}
