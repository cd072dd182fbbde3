//! The list of items that the examinee of a session must not get.

ghost use Rattle.std.specs.Prelude.{◌↔◌, IsTrue, MatchOption, Some};
ghost use Rattle.std.specs.Option.{option_copied};
ghost use Rattle.bank_tables.specs.Items.{has};
ghost use Rattle.bank_tables.specs.Validity.{HoldsItems};
ghost use Rattle.constraint_model.specs.Views.{problem_of};
ghost use Rattle.form_model.specs.Validity.{IsPlanFor, IsWellMade};
ghost use Rattle.history_model.specs.Lists.{IsListFor, IsWholeWithout, IsLegalList, IsLegalWithout};
ghost use Rattle.exam_session.specs.Unlisted.{IsUnlisted};

use bank_tables::{Bank, ItemSet};
use constraint_model::{Problem, Spec, meets};
use history_model::{Illegal, Without};

/// Whether the set is a list for the bank: it has items, all of the bank.
pub fn is_list(bank: &Bank, items: &ItemSet) -> bool
    // Promise: Whether a set is a list for the bank can be asked, and the whole problem without its
    // items can be had, well made
    // - of `is_list`, `whole_without`
    // - by the clause (`IsListFor`), `whole` (`IsWholeWithout`), `well_made`
    ensures { IsTrue result ↔ IsListFor bank.now (has items.now) }
{
    match items.first() {
        Some(_) => items.all_below(bank.items()),
        None => false,
    }
}

/// The whole problem, at the mode of the plan's prior, with the items of a list barred.
pub fn whole_without<'a>(bank: &'a Bank, spec: &'a Spec, items: &ItemSet) -> Problem<'a>
    requires plan { IsPlanFor bank.now spec.now }
    requires items { HoldsItems bank.now (has items.now) }
    ensures whole { IsWholeWithout bank.now spec.now (has items.now) (problem_of result) }
    ensures well_made { IsWellMade (problem_of result) }
{
    let whole = Problem::whole(bank, spec);
    Problem {
        bank: whole.bank,
        spec: whole.spec,
        session: whole.session,
        step: whole.step,
        aside: whole.aside,
        given: whole.given,
        barred: *items,
        theta: whole.theta,
        last: whole.last,
        start: whole.start,
    }
}

/// Why a start may not have this list.
fn list_fault(bank: &Bank, spec: &Spec, list: &Without) -> Option<Illegal>
    requires { IsPlanFor bank.now spec.now }
    ensures { MatchOption result (IsLegalList bank.now spec.now list.now)
        (IsUnlisted bank.now spec.now (Some list.now)) }
{
    if !is_list(bank, &list.items) {
        return Some(Illegal::NoItem(bank.items()));
    }
    let problem = whole_without(bank, spec, &list.items);
    match meets(&problem, &list.form) {
        Some(breach) => Some(Illegal::NotWithout(breach)),
        None => None,
    }
}

/// Why a start may not have its list, if it has one.
pub(crate) fn unlisted(bank: &Bank, spec: &Spec, without: Option<&Without>) -> Option<Illegal>
    requires { IsPlanFor bank.now spec.now }
    ensures { MatchOption result
        (IsLegalWithout bank.now spec.now (option_copied without.entry))
        (IsUnlisted bank.now spec.now (option_copied without.entry)) }
{
    match without {
        Some(list) => list_fault(bank, spec, list),
        None => None,
    }
}
