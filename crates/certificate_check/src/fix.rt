//! The nodes that fix items.

ghost use Rattle.std.specs.Prelude.{◌↔◌, IsTrue};
ghost use Rattle.std.specs.Option.{option_map};
ghost use Rattle.bank_tables.specs.Items.{has};
ghost use Rattle.form_model.specs.Validity.{IsWellMade};
ghost use Rattle.certificate_model.specs.declared.node.Node.TheVariants.{Fix};
ghost use Rattle.certificate_model.specs.Verdicts.{ReachesGoal};
ghost use Rattle.constraint_model.specs.Views.{problem_of};
ghost use Rattle.certificate_check.specs.Answers.{IsNodeAnswer};
ghost use Rattle.certificate_check.specs.Cuts.{path_of, IsStanding};
ghost use Rattle.certificate_check.specs.Fixes.{IsFixBelow};

use crate::cut::Cut;
use crate::fixing::fixed_cut;
use crate::standing::Standing;
use bank_tables::ItemSet;
use certificate_model::Reason;
use constraint_model::{Problem, names_only_sides, objective};
use proof_tree::Tree;

/// Whether there is a form whose objective reaches the goal.
fn reaches_goal(problem: &Problem, form: &Option<ItemSet>, goal: u32) -> bool
    requires { IsWellMade (problem_of problem.now) }
    ensures { IsTrue result
        ↔ ReachesGoal (problem_of problem.now) (option_map has form.now) goal }
{
    match form {
        Some(items) => goal as u64 <= objective(problem, items),
        None => false,
    }
}

/// The path below a Fix, or why it is unsound.
#[inline(never)]
pub fn fix_below(
    problem: &Problem,
    form: &Option<ItemSet>,
    tree: &Tree,
    standing: &Standing,
    which: u8,
    goal: u32,
) -> Result<Cut, Reason>
    requires well_made { IsWellMade (problem_of problem.now) }
    requires standing { IsStanding (problem_of problem.now) standing.now }
    ensures { IsFixBelow (problem_of problem.now) (option_map has form.now) tree.now
        (path_of standing.now.cut) which goal result }
{
    let vectors = tree.vectors();
    if which as usize >= vectors.len() {
        return Err(Reason::NoVector);
    }
    let vector = vectors[which as usize].pairs();
    if !names_only_sides(problem, vector) {
        return Err(Reason::NoSide);
    }
    if !reaches_goal(problem, form, goal) {
        return Err(Reason::NotClosed);
    }
    match fixed_cut(problem, standing, vector, goal) {
        Some(below) => Ok(below),
        None => Err(Reason::FixesNothing),
    }
}

/// Why a Fix is unsound.
pub fn fix_fault(
    problem: &Problem,
    form: &Option<ItemSet>,
    tree: &Tree,
    standing: &Standing,
    which: u8,
    goal: u32,
) -> Option<Reason>
    requires well_made { IsWellMade (problem_of problem.now) }
    requires standing { IsStanding (problem_of problem.now) standing.now }
    ensures { IsNodeAnswer (problem_of problem.now) (option_map has form.now) tree.now
        (path_of standing.now.cut) (Fix which goal) result }
{
    match fix_below(problem, form, tree, standing, which, goal) {
        Ok(_) => None,
        Err(reason) => Some(reason),
    }
}
