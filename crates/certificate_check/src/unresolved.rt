//! Paths that neither counting nor the plain bound settles.

ghost use Rattle.std.specs.Prelude.{◌↔◌, IsTrue};
ghost use Rattle.std.specs.Option.{option_map};
ghost use Rattle.bank_tables.specs.Items.{has};
ghost use Rattle.certificate_model.specs.declared.node.Node.TheVariants.{Fix};
ghost use Rattle.certificate_model.specs.Spending.{PlainBoundExceeds, IsUnresolved, IsSpentNode};
ghost use Rattle.form_model.specs.Validity.{IsWellMade};
ghost use Rattle.constraint_model.specs.Views.{problem_of};
ghost use Rattle.certificate_check.specs.Cuts.{path_of, IsStanding};
ghost use Rattle.certificate_check.specs.Fixes.{IsSpentOnward};
ghost use Rattle.certificate_check.specs.Spends.{ExceedsForm, IsStartForm};

use crate::counting::is_possible;
use crate::cut::Cut;
use crate::fixing::fixed_cut;
use crate::leaf::closing_value;
use crate::node::is_open_stimulus;
use crate::relaxed::relaxed_maximum;
use crate::standing::Standing;
use bank_tables::ItemSet;
use certificate_model::Node;
use constraint_model::{Problem, is_form, names_only_sides};
use proof_tree::Tree;

/// The start of the problem, if it is a form.
pub fn start_form(problem: &Problem) -> Option<ItemSet>
    requires { IsWellMade (problem_of problem.now) }
    ensures { IsStartForm (problem_of problem.now) (option_map has result) }
{
    match problem.start {
        Some(items) => {
            if is_form(problem, &items) {
                Some(items)
            } else {
                None
            }
        }
        None => None,
    }
}

/// Whether the plain bound is defined and exceeds the value that closes a path.
fn plain_bound_exceeds(problem: &Problem, standing: &Standing, items: &ItemSet) -> bool
    requires well_made { IsWellMade (problem_of problem.now) }
    requires standing { IsStanding (problem_of problem.now) standing.now }
    ensures { IsTrue result
        ↔ PlainBoundExceeds (problem_of problem.now) (path_of standing.now.cut) (has items.now) }
{
    let none: [(u16, u32); 0] = [];
    match relaxed_maximum(problem, standing, &none, false) {
        Some(maximum) => maximum > closing_value(problem, items),
        None => false,
    }
}

/// Whether the plain bound exceeds the start, where that is a form.
fn exceeds_form(problem: &Problem, start: &Option<ItemSet>, standing: &Standing) -> bool
    requires well_made { IsWellMade (problem_of problem.now) }
    requires standing { IsStanding (problem_of problem.now) standing.now }
    ensures { IsTrue result
        ↔ ExceedsForm (problem_of problem.now) (path_of standing.now.cut)
        (option_map has start.now) }
{
    match start {
        Some(items) => plain_bound_exceeds(problem, standing, items),
        None => true,
    }
}

/// Whether neither counting nor the plain bound settles the path.
fn is_unresolved(problem: &Problem, start: &Option<ItemSet>, standing: &Standing) -> bool
    requires well_made { IsWellMade (problem_of problem.now) }
    requires start { IsStartForm (problem_of problem.now) (option_map has start.now) }
    requires standing { IsStanding (problem_of problem.now) standing.now }
    ensures { IsTrue result ↔ IsUnresolved (problem_of problem.now) (path_of standing.now.cut) }
{
    is_possible(problem, standing) && exceeds_form(problem, start, standing)
}

/// The path below a Fix that is as in a spent tree: its vector is there and settles something, and
/// the path is unresolved.
fn spent_fix(
    problem: &Problem,
    start: &Option<ItemSet>,
    tree: &Tree,
    standing: &Standing,
    which: u8,
    goal: u32,
) -> Option<Cut>
    requires well_made { IsWellMade (problem_of problem.now) }
    requires start { IsStartForm (problem_of problem.now) (option_map has start.now) }
    requires standing { IsStanding (problem_of problem.now) standing.now }
    ensures { IsSpentOnward (problem_of problem.now) tree.now (path_of standing.now.cut)
        (Fix which goal) result }
{
    let vectors = tree.vectors();
    if which as usize >= vectors.len() {
        return None;
    }
    let vector = vectors[which as usize].pairs();
    if !names_only_sides(problem, vector) || !is_unresolved(problem, start, standing) {
        return None;
    }
    fixed_cut(problem, standing, vector, goal)
}

/// Whether a node is as in a spent tree: a branch on what is free or open, a Fix that settles
/// something, and on these and on an Open leaf the path unresolved.
fn is_spent_node(
    problem: &Problem,
    start: &Option<ItemSet>,
    tree: &Tree,
    standing: &Standing,
    node: &Node,
) -> bool
    requires well_made { IsWellMade (problem_of problem.now) }
    requires start { IsStartForm (problem_of problem.now) (option_map has start.now) }
    requires standing { IsStanding (problem_of problem.now) standing.now }
    ensures { IsTrue result
        ↔ IsSpentNode (problem_of problem.now) tree.now (path_of standing.now.cut) node.now }
{
    match node {
        Node::BranchItem(item) => {
            standing.free.has(*item) && is_unresolved(problem, start, standing)
        }
        Node::BranchStimulus(which) => {
            is_open_stimulus(problem, standing, *which) && is_unresolved(problem, start, standing)
        }
        Node::Open => is_unresolved(problem, start, standing),
        Node::Fix(which, goal) => {
            spent_fix(problem, start, tree, standing, *which, *goal).is_some()
        }
        Node::Bound(_) | Node::Ray(_) | Node::Count(_) | Node::Whole => true,
    }
}

/// The path that a node goes on with, if it is as in a spent tree: a Fix its own, any other the
/// path that leads to it.
#[inline(never)]
pub fn spent_onward(
    problem: &Problem,
    start: &Option<ItemSet>,
    tree: &Tree,
    standing: &Standing,
    node: &Node,
) -> Option<Cut>
    requires well_made { IsWellMade (problem_of problem.now) }
    requires start { IsStartForm (problem_of problem.now) (option_map has start.now) }
    requires standing { IsStanding (problem_of problem.now) standing.now }
    ensures { IsSpentOnward (problem_of problem.now) tree.now (path_of standing.now.cut) node.now
        result }
{
    if let Node::Fix(which, goal) = node {
        return spent_fix(problem, start, tree, standing, *which, *goal);
    }
    if !is_spent_node(problem, start, tree, standing, node) {
        return None;
    }
    Some(standing.cut)
}
