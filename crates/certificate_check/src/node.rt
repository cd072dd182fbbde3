//! One node of a proof tree.

ghost use Rattle.std.specs.Prelude.{◌↔◌, IsTrue};
ghost use Rattle.std.specs.Option.{option_map};
ghost use Rattle.bank_tables.specs.Items.{has};
ghost use Rattle.certificate_model.specs.declared.node.Node.TheVariants.{Whole, Open};
ghost use Rattle.form_model.specs.Validity.{IsWellMade};
ghost use Rattle.certificate_model.specs.Verdicts.{IsStimulusBranch};
ghost use Rattle.constraint_model.specs.Views.{problem_of};
ghost use Rattle.certificate_check.specs.Answers.{IsNodeAnswer};
ghost use Rattle.certificate_check.specs.Cuts.{path_of, IsStanding};

use crate::candidate::{is_settled, only_candidate};
use crate::counting::is_impossible;
use crate::fix::fix_fault;
use crate::leaf::{bound_fault, ray_fault};
use crate::standing::Standing;
use bank_tables::ItemSet;
use certificate_model::{Node, Reason};
use constraint_model::Problem;
use proof_tree::Tree;

/// Whether a stimulus is one of the bank's, and open.
pub fn is_open_stimulus(problem: &Problem, standing: &Standing, which: u8) -> bool
    requires { IsStanding (problem_of problem.now) standing.now }
    ensures { IsTrue result
        ↔ IsStimulusBranch (problem_of problem.now) (path_of standing.now.cut) which }
{
    which > 0 && which <= problem.bank.stimuli() && standing.opened.has(which as u16)
}

/// Why a Whole leaf is unsound.
fn whole_fault(
    problem: &Problem,
    form: &Option<ItemSet>,
    tree: &Tree,
    standing: &Standing,
) -> Option<Reason>
    requires well_made { IsWellMade (problem_of problem.now) }
    requires standing { IsStanding (problem_of problem.now) standing.now }
    ensures { IsNodeAnswer (problem_of problem.now) (option_map has form.now) tree.now
        (path_of standing.now.cut) Whole result }
{
    match only_candidate(problem, standing) {
        None => Some(Reason::NotWhole),
        Some(items) => {
            if is_settled(problem, form, standing, &items) {
                None
            } else {
                Some(Reason::Better)
            }
        }
    }
}

/// Why an Open leaf is unsound.
fn open_fault(
    problem: &Problem,
    form: &Option<ItemSet>,
    tree: &Tree,
    standing: &Standing,
) -> Option<Reason>
    requires { IsStanding (problem_of problem.now) standing.now }
    ensures { IsNodeAnswer (problem_of problem.now) (option_map has form.now) tree.now
        (path_of standing.now.cut) Open result }
{
    match only_candidate(problem, standing) {
        None => None,
        Some(_) => Some(Reason::OpenWhole),
    }
}

/// Why a node is unsound; None where it is sound.
#[inline(never)]
pub fn node_fault(
    problem: &Problem,
    form: &Option<ItemSet>,
    tree: &Tree,
    standing: &Standing,
    node: &Node,
) -> Option<Reason>
    requires well_made { IsWellMade (problem_of problem.now) }
    requires standing { IsStanding (problem_of problem.now) standing.now }
    ensures { IsNodeAnswer (problem_of problem.now) (option_map has form.now) tree.now
        (path_of standing.now.cut) node.now result }
{
    match node {
        Node::BranchItem(item) => {
            if standing.free.has(*item) {
                None
            } else {
                Some(Reason::Determined)
            }
        }
        Node::BranchStimulus(which) => {
            if is_open_stimulus(problem, standing, *which) {
                None
            } else {
                Some(Reason::Determined)
            }
        }
        Node::Bound(which) => bound_fault(problem, form, tree, standing, *which),
        Node::Ray(which) => ray_fault(problem, form, tree, standing, *which),
        Node::Count(row) => {
            if is_impossible(problem, standing, *row) {
                None
            } else {
                Some(Reason::RowPossible)
            }
        }
        Node::Whole => whole_fault(problem, form, tree, standing),
        Node::Open => open_fault(problem, form, tree, standing),
        Node::Fix(which, goal) => fix_fault(problem, form, tree, standing, *which, *goal),
    }
}
