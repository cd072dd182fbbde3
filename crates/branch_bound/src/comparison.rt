//! Forms compared with those that a search was given.

ghost use Rattle.std.specs.Prelude.{◌↔◌, IsTrue, Some};
ghost use Rattle.std.specs.Option.{option_map};
ghost use Rattle.bank_tables.specs.Items.{has};
ghost use Rattle.form_model.specs.Validity.{IsWellMade};
ghost use Rattle.certificate_model.specs.Verdicts.{IsFormOrNone};
ghost use Rattle.constraint_model.specs.Views.{problem_of};
ghost use Rattle.branch_bound.specs.Comparing.{IsAsGood};

use bank_tables::ItemSet;
use constraint_model::{Problem, is_form, objective};

/// Whether a set that was given is there and a form only where a form is there and no worse.
pub fn is_as_good(problem: &Problem, given: &Option<ItemSet>, form: &Option<ItemSet>) -> bool
    requires { IsWellMade (problem_of problem.now) }
    ensures { IsTrue result ↔
        IsAsGood (problem_of problem.now) (option_map has given.now) (option_map has form.now) }
{
    match given {
        Some(set) => match form {
            Some(found) => {
                objective(problem, set) <= objective(problem, found) || !is_form(problem, set)
            }
            None => !is_form(problem, set),
        },
        None => true,
    }
}

/// The set, where it is a form better than the one kept, else the one kept.
pub fn better(problem: &Problem, kept: Option<ItemSet>, set: ItemSet) -> Option<ItemSet>
    requires well_made { IsWellMade (problem_of problem.now) }
    requires kept { IsFormOrNone (problem_of problem.now) (option_map has kept) }
    ensures form { IsFormOrNone (problem_of problem.now) (option_map has result) }
    ensures kept { IsAsGood (problem_of problem.now) (option_map has kept) (option_map has result) }
    ensures set { IsAsGood (problem_of problem.now) (Some (has set)) (option_map has result) }
{
    if !is_form(problem, &set) {
        return kept;
    }
    match kept {
        Some(old) => {
            if objective(problem, &set) > objective(problem, &old) {
                Some(set)
            } else {
                Some(old)
            }
        }
        None => Some(set),
    }
}

/// The better of two sets where they are forms: none where neither is.
pub fn better_form(
    problem: &Problem,
    first: Option<ItemSet>,
    second: Option<ItemSet>,
) -> Option<ItemSet>
    requires { IsWellMade (problem_of problem.now) }
    ensures form { IsFormOrNone (problem_of problem.now) (option_map has result) }
    ensures first { IsAsGood (problem_of problem.now) (option_map has first)
        (option_map has result) }
    ensures second { IsAsGood (problem_of problem.now) (option_map has second)
        (option_map has result) }
{
    let kept = match first {
        Some(set) => better(problem, None, set),
        None => None,
    };
    match second {
        Some(set) => better(problem, kept, set),
        None => kept,
    }
}
