//! The form that a search hands over.

ghost use Rattle.std.specs.Prelude.{IfSome};
ghost use Rattle.bank_tables.specs.Items.{has};
ghost use Rattle.form_model.specs.Forms.{Form};
ghost use Rattle.form_model.specs.Validity.{IsWellMade};
ghost use Rattle.constraint_model.specs.Views.{problem_of};

use bank_tables::ItemSet;
use constraint_model::{Problem, is_form};

/// The set of items, if there is one and it is a form of the problem.
pub fn tested_form(problem: &Problem, items: &Option<ItemSet>) -> Option<ItemSet>
    requires { IsWellMade (problem_of problem.now) }
    // Promise: A set of items that is handed over is a form
    ensures { IfSome result (λ x. Form (problem_of problem.now) (has x)) }
{
    let items = items.as_ref()?;
    if is_form(problem, items) {
        Some(*items)
    } else {
        None
    }
}
