//! The enumeration of all sets of items.

ghost use Rattle.std.specs.Prelude.{◌≤◌, MatchOption};
ghost use Rattle.std.specs.Option.{option_map};
ghost use Rattle.bank_tables.specs.Items.{has};
ghost use Rattle.bank_tables.specs.Tables.{size};
ghost use Rattle.form_model.specs.Forms.{Best, HasNoForm};
ghost use Rattle.form_model.specs.Validity.{IsWellMade};
ghost use Rattle.certificate_model.specs.Verdicts.{IsFormOrNone};
ghost use Rattle.constraint_model.specs.Views.{problem_of};
ghost use Rattle.form_enumeration.specs.Enumeration.{IsBetterOf};

use crate::mask::masked;
use bank_tables::ItemSet;
use constraint_model::{Problem, meets, objective};

/// The set, where it is a form with a greater objective than the one kept, else the one kept.
fn better_of(problem: &Problem, kept: Option<ItemSet>, set: ItemSet) -> Option<ItemSet>
    requires well_made { IsWellMade (problem_of problem.now) }
    requires kept { IsFormOrNone (problem_of problem.now) (option_map has kept) }
    ensures { IsBetterOf (problem_of problem.now) (option_map has kept) (has set)
        (option_map has result) }
{
    match meets(problem, &set) {
        Some(_) => kept,
        None => match kept {
            None => Some(set),
            Some(old) => {
                if objective(problem, &old) < objective(problem, &set) {
                    Some(set)
                } else {
                    Some(old)
                }
            }
        },
    }
}

/// A form of greatest objective among all sets of items; none where no set is a form.
// Promise: In a bank of at most 16 items: a form that no form exceeds, over all sets of items, or
// none exactly where no set is a form
// - by `Best`, `HasNoForm`
pub fn best_form(problem: &Problem) -> Option<ItemSet>
    requires well_made { IsWellMade (problem_of problem.now) }
    requires small { size problem.now.bank.now ≤ 16 }
    ensures { MatchOption result (HasNoForm (problem_of problem.now)) (λ form.
        Best (problem_of problem.now) (has form)) }
{
    let items = problem.bank.items();
    let length = problem.spec.length();
    let end = 1u32 << items;
    let mut best = None;
    for mask in 0..end {
        if mask.count_ones() == length {
            best = better_of(problem, best, masked(mask, items));
        }
    }
    best
}
