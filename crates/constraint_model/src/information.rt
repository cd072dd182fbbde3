//! The objective of a set of items.

ghost use Rattle.std.specs.Prelude.{◌≡◌};
ghost use Rattle.bank_tables.specs.Items.{has};
ghost use Rattle.form_model.specs.Forms.{objective};
ghost use Rattle.form_model.specs.Validity.{IsWellMade};
ghost use Rattle.constraint_model.specs.Views.{problem_of};

use crate::problem::Problem;
use bank_tables::ItemSet;

/// The information of a set of items at the estimate, summed.
pub fn objective(problem: &Problem, form: &ItemSet) -> u64
    requires { IsWellMade (problem_of problem.now) }
    // Promise: The objective is the information of the set at the estimate; no sum wraps
    // - by the clause (`objective`)
    ensures { result ≡ objective (problem_of problem.now) (has form.now) }
{
    let items = problem.bank.items();
    let mut sum = 0u64;
    for i in 0..items {
        if form.has(i) {
            sum += problem.bank.info(i, problem.theta) as u64;
        }
    }
    sum
}
