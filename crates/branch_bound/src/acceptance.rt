//! The tests that let in what a search gives.

ghost use Rattle.std.specs.Prelude.{IfSome, Some, None};
ghost use Rattle.std.specs.Option.{option_map};
ghost use Rattle.bank_tables.specs.Items.{has};
ghost use Rattle.form_model.specs.Validity.{IsWellMade};
ghost use Rattle.constraint_model.specs.Views.{problem_of};
ghost use Rattle.branch_bound.specs.Assemblies.{IsAssembly};
ghost use Rattle.branch_bound.specs.Showing.{Shows};

use crate::comparison::is_as_good;
use crate::exchanges::firm;
use crate::outcome::Outcome;
use crate::pruning::is_pruned;
use bank_tables::ItemSet;
use certificate_check::{Verdict, check, spent};
use constraint_model::Problem;
use proof_tree::Tree;

/// The outcome that a tree shows with a form, within a budget of nodes.
fn shown_with(problem: &Problem, form: ItemSet, tree: &Tree, budget: u16) -> Option<Outcome>
    requires { IsWellMade (problem_of problem.now) }
    ensures { IfSome result (Shows (problem_of problem.now) (Some (has form)) tree.now budget) }
{
    match check(problem, Some(&form), tree) {
        Verdict::Optimal => Some(Outcome::Found { form, proved: true }),
        Verdict::Partial(_) => {
            if !spent(problem, tree, budget) {
                return None;
            }
            Some(Outcome::Found {
                form: firm(problem, form),
                proved: false,
            })
        }
        Verdict::NoForm | Verdict::Bad(_, _) => None,
    }
}

/// The outcome that a tree shows without a form.
fn shown_without(problem: &Problem, tree: &Tree, budget: u16) -> Option<Outcome>
    requires { IsWellMade (problem_of problem.now) }
    ensures { IfSome result (Shows (problem_of problem.now) None tree.now budget) }
{
    match check(problem, None, tree) {
        Verdict::NoForm => Some(Outcome::NoForm),
        Verdict::Partial(_) => {
            if !spent(problem, tree, budget) {
                return None;
            }
            Some(Outcome::NoneFound)
        }
        Verdict::Optimal | Verdict::Bad(_, _) => None,
    }
}

/// The outcome that the form or none and the tree of a search show, where they pass every test: the
/// verdict of the separate checker on the tree gives it, the form is no worse than the start and
/// the hint, and no path goes on past a row that is impossible by counting.
pub fn outcome_shown(
    problem: &Problem,
    hint: &Option<ItemSet>,
    budget: u16,
    form: Option<ItemSet>,
    tree: &Tree,
) -> Option<Outcome>
    requires { IsWellMade (problem_of problem.now) }
    ensures { IfSome result (IsAssembly (problem_of problem.now)
        (option_map has hint.now) budget tree.now) }
{
    if !is_as_good(problem, &problem.start, &form) || !is_as_good(problem, hint, &form) {
        return None;
    }
    if !is_pruned(problem, tree) {
        return None;
    }
    match form {
        Some(items) => shown_with(problem, items, tree, budget),
        None => shown_without(problem, tree, budget),
    }
}
