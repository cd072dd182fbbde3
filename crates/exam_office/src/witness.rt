//! The form without the items of a list that a start with the list carries.

ghost use Rattle.std.specs.Prelude.{◌≡◌, Ok, IsTrue, IsFalse, IfErr};
ghost use Rattle.bank_tables.specs.Items.{has};
ghost use Rattle.form_model.specs.Forms.{Meets};
ghost use Rattle.form_model.specs.Validity.{IsPlanFor};
ghost use Rattle.history_model.specs.Lists.{IsListFor, IsFormWithout};
ghost use Rattle.exam_office.specs.Calls.{IsWitness, LacksWitness};

use bank_tables::{Bank, ItemSet};
use branch_bound::{Outcome, assemble};
use constraint_model::{Spec, meets};
use exam_session::{is_list, whole_without};
use history_model::Refusal;
use std::alloc::Global;

/// Whether a form without the items of a list is to be searched for: the set is a list for the
/// bank, and the base has one of its items.
#[tactic(auto, using(crate::proofs::Witnesses::no_base_so))]
pub fn needs_search(bank: &Bank, spec: &Spec, base: &ItemSet, items: &ItemSet) -> bool
    requires plan { IsPlanFor bank.now spec.now }
    requires base { Meets bank.now spec.now (has base.now) }
    // Promise: Such a form is searched for only where the set is a list for the bank, and the base
    // is no such form
    // - by `list`, `base`
    ensures list { IsTrue result → IsListFor bank.now (has items.now) }
    ensures needed { IsTrue result → IsFormWithout bank.now spec.now (has items.now)
        (has base.now) → ⊥ }
    ensures base { IsFalse result → IsListFor bank.now (has items.now)
        → IsWitness bank.now spec.now items.now (Ok base.now) }
{
    if !is_list(bank, items) {
        return false;
    }
    let problem = whole_without(bank, spec, items);
    meets(&problem, base).is_some()
}

/// Searches for a form without the items of a list, within the plan's node budget for a base form.
/// Refused with `NoForm` if there is no such form, with `NoneFound` if none was found within the
/// budget, with `Memory` without memory for the search, and with nothing else.
pub fn search_witness(
    alloc: Global,
    bank: &Bank,
    spec: &Spec,
    items: &ItemSet,
) -> Result<ItemSet, Refusal>
    requires plan { IsPlanFor bank.now spec.now }
    requires list { IsListFor bank.now (has items.now) }
    ensures witness { IsWitness bank.now spec.now items.now result }
{
    let problem = whole_without(bank, spec, items);
    let budget = spec.base_budget() as u16;
    match assemble(alloc, problem, None, budget) {
        Ok(assembled) => match assembled.outcome() {
            Outcome::Found { form, .. } => Ok(form),
            Outcome::NoForm => Err(Refusal::NoForm),
            Outcome::NoneFound => Err(Refusal::NoneFound),
        },
        Err(_) => Err(Refusal::Memory),
    }
}

/// A form without the items of a list, which shows that a session may be started with the list. It
/// is the base if that has none of them, and else the form that the assembler finds within the
/// plan's node budget for a base form. It depends on the bank, the plan, the base and the list
/// alone.
///
/// Refused with `NoForm` if there is no such form, with `NoneFound` if none was found within the
/// budget, with `Memory` without memory for the search, and with nothing else. If the set is no
/// list for the bank, the result is the base without a search, and shows nothing.
pub fn seek_witness(
    alloc: Global,
    bank: &Bank,
    spec: &Spec,
    base: &ItemSet,
    items: &ItemSet,
) -> Result<ItemSet, Refusal>
    requires plan { IsPlanFor bank.now spec.now }
    requires base { Meets bank.now spec.now (has base.now) }
    // Promise: What a search for a form without the items of a list finds: such a form; that there
    // is none; or that a tree within the node budget for a base form shows none. The only other
    // error is lack of memory
    // - of `seek_witness`, `search_witness`
    // - by `witness` (`IsWitness`), `why` (`LacksWitness`)
    ensures witness { IsListFor bank.now (has items.now)
        → IsWitness bank.now spec.now items.now result }
    ensures base { IsFormWithout bank.now spec.now (has items.now) (has base.now)
        → result ≡ Ok base.now }
    ensures why { IfErr result (LacksWitness bank.now spec.now items.now) }
{
    if needs_search(bank, spec, base, items) {
        search_witness(alloc, bank, spec, items)
    } else {
        Ok(*base)
    }
}
