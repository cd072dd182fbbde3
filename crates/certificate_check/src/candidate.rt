//! The one set of items that is left on a path.

ghost use Rattle.std.specs.Prelude.{◌≡◌, ◌↔◌, IsTrue, Some};
ghost use Rattle.std.specs.Option.{option_map};
ghost use Rattle.bank_tables.specs.Items.{has};
ghost use Rattle.bank_tables.specs.Sums.{any_below};
ghost use Rattle.bank_tables.specs.Tables.{size};
ghost use Rattle.form_model.specs.Validity.{IsWellMade};
ghost use Rattle.certificate_model.specs.Verdicts.{only_candidate, IsAtLeast, LacksChosen, CandidateIsSettled};
ghost use Rattle.constraint_model.specs.Views.{problem_of};
ghost use Rattle.certificate_check.specs.Cuts.{path_of, IsStanding};

use crate::standing::Standing;
use bank_tables::{Bank, ItemSet};
use constraint_model::counts::{size_in, stimuli_used};
use constraint_model::{Problem, is_form, objective};

/// Whether the set has an item of the bank.
pub fn has_members(bank: &Bank, items: &ItemSet) -> bool
    ensures { result ≡ any_below (size bank.now) (has items.now) }
{
    let mut found = false;
    for i in 0..bank.items() {
        if items.has(i) {
            found = true;
        }
    }
    found
}

/// The only set that may be a form on the path; None where more than one may.
pub fn only_candidate(problem: &Problem, standing: &Standing) -> Option<ItemSet>
    requires { IsStanding (problem_of problem.now) standing.now }
    ensures { option_map has result
        ≡ only_candidate (problem_of problem.now) (path_of standing.now.cut) }
{
    let length = problem.spec.length();
    if !has_members(problem.bank, &standing.free)
        || size_in(problem.bank, &standing.cut.taken) == length
    {
        Some(standing.cut.taken)
    } else if size_in(problem.bank, &standing.may_hold) == length {
        Some(standing.may_hold)
    } else {
        None
    }
}

/// Whether a chosen stimulus has no item in the set.
fn lacks_chosen(problem: &Problem, standing: &Standing, items: &ItemSet) -> bool
    requires { IsStanding (problem_of problem.now) standing.now }
    ensures { IsTrue result
        ↔ LacksChosen (problem_of problem.now) (path_of standing.now.cut) (has items.now) }
{
    let used = stimuli_used(problem.bank, items);
    for k in 0..problem.bank.stimuli() as u16 {
        if standing.chosen.has(k + 1) && !used.has(k + 1) {
            return true;
        }
    }
    false
}

/// Whether there is a form whose objective is at least that of the set.
fn is_at_least(problem: &Problem, form: &Option<ItemSet>, items: &ItemSet) -> bool
    requires { IsWellMade (problem_of problem.now) }
    ensures { IsTrue result
        ↔ IsAtLeast (problem_of problem.now) (option_map has form.now) (has items.now) }
{
    match form {
        Some(best) => objective(problem, items) <= objective(problem, best),
        None => false,
    }
}

/// Whether the set is no form, or lacks a chosen stimulus, or is no better than the form.
pub fn is_settled(
    problem: &Problem,
    form: &Option<ItemSet>,
    standing: &Standing,
    items: &ItemSet,
) -> bool
    requires well_made { IsWellMade (problem_of problem.now) }
    requires standing { IsStanding (problem_of problem.now) standing.now }
    ensures { IsTrue result
        ↔ CandidateIsSettled (problem_of problem.now) (option_map has form.now)
        (path_of standing.now.cut) (Some (has items.now)) }
{
    !is_form(problem, items)
        || lacks_chosen(problem, standing, items)
        || is_at_least(problem, form, items)
}
