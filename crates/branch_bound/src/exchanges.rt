//! Exchanges of one item, which make a form firm.

ghost use Rattle.std.specs.Prelude.{◌≡◌, ℕ, ◌≤◌, ◌<◌, ◌&&◌, IsTrue};
ghost use Rattle.std.specs.Option.{option_map};
ghost use Rattle.bank_tables.specs.Items.{has};
ghost use Rattle.form_model.specs.Forms.{Form, Firm, objective};
ghost use Rattle.form_model.specs.Validity.{IsWellMade};
ghost use Rattle.constraint_model.specs.Views.{problem_of};
ghost use Rattle.branch_bound.specs.Exchanges.{exchange, IsExchange, IsBettering};

use bank_tables::ItemSet;
use constraint_model::{Problem, is_form};

/// The form with one item in and another out.
fn exchange(form: &ItemSet, out: u16, item: u16) -> ItemSet
    requires out { out < 512 }
    requires item { item < 512 }
    ensures { (i : ℕ) → has result i ≡ exchange (has form.now) out item i }
{
    form.without(out).with(item)
}

/// A better form that has one item in for the item out; none where no such exchange betters the
/// form.
fn exchange_of(problem: &Problem, form: &ItemSet, out: u16) -> Option<ItemSet>
    requires well_made { IsWellMade (problem_of problem.now) }
    requires form { Form (problem_of problem.now) (has form.now) }
    requires out { IsTrue (has form.now out) }
    ensures { IsExchange (problem_of problem.now) (has form.now) out (option_map has result) }
{
    let bank = problem.bank;
    let worth = bank.info(out, problem.theta);
    for i in 0..bank.items() {
        if !form.has(i) && bank.info(i, problem.theta) > worth {
            let set = exchange(form, out, i);
            if is_form(problem, &set) {
                return Some(set);
            }
        }
    }
    None
}

/// A better form by an exchange of one item; none where the form is firm.
fn better_exchange(problem: &Problem, form: &ItemSet) -> Option<ItemSet>
    requires well_made { IsWellMade (problem_of problem.now) }
    requires form { Form (problem_of problem.now) (has form.now) }
    ensures { IsBettering (problem_of problem.now) (has form.now) (option_map has result) }
{
    for out in 0..problem.bank.items() {
        if form.has(out) {
            if let Some(better) = exchange_of(problem, form, out) {
                return Some(better);
            }
        }
    }
    None
}

/// A form that no exchange of one item betters, no worse than the form given.
pub fn firm(problem: &Problem, form: ItemSet) -> ItemSet
    requires well_made { IsWellMade (problem_of problem.now) }
    requires form { Form (problem_of problem.now) (has form) }
    ensures firm { Firm (problem_of problem.now) (has result) }
    ensures no_worse { objective (problem_of problem.now) (has form) ≤ objective
        (problem_of problem.now) (has result) }
{
    let mut best = form;
    while let Some(better) = better_exchange(problem, &best) {
        best = better;
    }
    best
}
