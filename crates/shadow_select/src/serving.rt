//! The item served from a form.

ghost use Rattle.std.specs.Prelude.{◌≡◌, ◌<◌};
ghost use Rattle.bank_tables.specs.Items.{has};
ghost use Rattle.bank_tables.specs.Tables.{size};
ghost use Rattle.form_model.specs.Forms.{Form};
ghost use Rattle.serving_model.specs.Serving.{last_stimulus, stimulus_goes_on, is_candidate, IsNext};
ghost use Rattle.form_model.specs.Validity.{IsWellMade};
ghost use Rattle.constraint_model.specs.Views.{problem_of};
ghost use Rattle.shadow_select.specs.Next.{HasFreeItem, IsNextBelow};

use crate::shown::last_stimulus;
use bank_tables::ItemSet;
use constraint_model::Problem;

/// Whether the form has an item not yet given of the stimulus of the item given last.
fn stimulus_goes_on(problem: &Problem, form: &ItemSet, last: u8) -> bool
    requires { last ≡ last_stimulus problem.now.bank.now problem.now.last }
    ensures { result ≡ stimulus_goes_on (problem_of problem.now) (has form.now) }
{
    let items = problem.bank.items();
    let mut found = false;
    for i in 0..items {
        if form.has(i) && !problem.given.has(i) && problem.bank.stimulus(i) == last {
            found = true;
        }
    }
    last != 0 && found
}

/// Whether an item is a candidate, where the stimulus of the item given last goes on or not.
fn is_candidate(problem: &Problem, form: &ItemSet, goes_on: bool, last: u8, item: u16) -> bool
    requires item { item < size problem.now.bank.now }
    requires goes_on { goes_on ≡ stimulus_goes_on (problem_of problem.now) (has form.now) }
    requires last { last ≡ last_stimulus problem.now.bank.now problem.now.last }
    ensures { result ≡ is_candidate (problem_of problem.now) (has form.now) item }
{
    form.has(item) && !problem.given.has(item) && (!goes_on || problem.bank.stimulus(item) == last)
}

/// The first of the candidates of greatest information, if there is a candidate.
fn best_candidate(problem: &Problem, form: &ItemSet, goes_on: bool, last: u8) -> Option<u16>
    requires well_made { IsWellMade (problem_of problem.now) }
    requires goes_on { goes_on ≡ stimulus_goes_on (problem_of problem.now) (has form.now) }
    requires last { last ≡ last_stimulus problem.now.bank.now problem.now.last }
    ensures { IsNextBelow (size problem.now.bank.now) (problem_of problem.now)
        (has form.now) result }
{
    let items = problem.bank.items();
    let mut best: Option<u16> = None;
    for i in 0..items {
        if is_candidate(problem, form, goes_on, last, i) {
            best = match best {
                None => Some(i),
                Some(old) => {
                    if problem.bank.info(old, problem.theta) < problem.bank.info(i, problem.theta) {
                        Some(i)
                    } else {
                        Some(old)
                    }
                }
            };
        }
    }
    best
}

/// The item served from a form of the problem that has an item not yet given. Of its items not yet
/// given it is one of the stimulus of the item given last, if there are such; of these one of the
/// greatest information at the estimate; of these the lowest number.
pub fn next_item(problem: &Problem, form: &ItemSet) -> u16
    requires well_made { IsWellMade (problem_of problem.now) }
    requires form { Form (problem_of problem.now) (has form.now) }
    requires free { HasFreeItem (problem_of problem.now) (has form.now) }
    // Promise: The item served is one of the form's items that are not given (those of the last
    // item's stimulus, if there are any): the one with the greatest information at the estimate,
    // and in a tie the lowest number
    // - by `next`, `item`
    ensures next { IsNext (problem_of problem.now) (has form.now) result }
    ensures item { result < size problem.now.bank.now }
{
    let last = last_stimulus(problem.bank, problem.last);
    let goes_on = stimulus_goes_on(problem, form, last);
    match best_candidate(problem, form, goes_on, last) {
        Some(item) => item,
        None => unreachable!(),
    }
}
