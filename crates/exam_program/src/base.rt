//! The assembly of the whole problem, and the base form.

ghost use Rattle.std.specs.Prelude.{IfOk, IfErr};
ghost use Rattle.bank_tables.specs.Items.{has};
ghost use Rattle.constraint_model.specs.Views.{problem_of};
ghost use Rattle.form_model.specs.Forms.{Meets};
ghost use Rattle.form_model.specs.Validity.{IsPlanFor, IsWellMade};
ghost use Rattle.exam_program.specs.Bases.{IsWholeAssembly, FindsForm, IsBaseForm, TellsForm};
ghost use Rattle.exam_program.specs.Halts.{HaltsAtBase};

use crate::halt::Halt;
use crate::tree_texts::form_text;
use bank_tables::{Bank, ItemSet};
use branch_bound::{Assembled, Memory, Outcome, assemble};
use constraint_model::{Problem, Spec};
use std::alloc::Global;

/// Assembles the whole problem within the base budget, with the plan's base, if there is one, as
/// the hint.
fn whole_assembly<'a>(
    alloc: Global,
    bank: &'a Bank,
    spec: &'a Spec,
) -> Result<Assembled<'a>, Memory>
    requires plan { IsPlanFor bank.now spec.now }
    ensures { IfOk result
        (λ a. IsWholeAssembly bank.now spec.now (problem_of a.problem) a.tree a.outcome) }
{
    let problem = Problem::whole(bank, spec);
    let base = spec.base();
    assemble(alloc, problem, base.as_ref(), spec.base_budget() as u16)
}

/// An assembly of the whole problem that found a form, the form, and whether it is proved best; or
/// why none was found.
fn found_form<'a>(
    alloc: Global,
    bank: &'a Bank,
    spec: &'a Spec,
) -> Result<(Assembled<'a>, ItemSet, bool), Halt>
    requires plan { IsPlanFor bank.now spec.now }
    ensures found { IfOk result (λ found. FindsForm bank.now spec.now
        (problem_of found.0.problem) found.1 found.2 found.0.tree) }
    ensures well_made { IfOk result (λ found. IsWellMade (problem_of found.0.problem)) }
    ensures halts { IfErr result (HaltsAtBase bank.now spec.now) }
{
    let assembled = whole_assembly(alloc, bank, spec)?;
    // `nodes` gives that the tree has a spelling.
    let _nodes = assembled.tree().nodes();
    match assembled.outcome() {
        Outcome::Found { form, proved } => Ok((assembled, form, proved)),
        Outcome::NoForm => Err(Halt::NoForm(assembled.into_tree())),
        Outcome::NoneFound => Err(Halt::NoBaseForm {
            budget: spec.base_budget(),
            tree: assembled.into_tree(),
        }),
    }
}

/// The base form: the plan's, or, where it has none, one that the assembly of the whole problem
/// finds.
pub(crate) fn base_form<'a>(alloc: Global, bank: &'a Bank, spec: &'a Spec) -> Result<ItemSet, Halt>
    requires plan { IsPlanFor bank.now spec.now }
    ensures base { IfOk result (IsBaseForm bank.now spec.now) }
    ensures meets { IfOk result (λ base. Meets bank.now spec.now (has base)) }
    ensures halts { IfErr result (HaltsAtBase bank.now spec.now) }
{
    if let Some(base) = spec.base() {
        return Ok(base);
    }
    let found = found_form(alloc, bank, spec)?;
    Ok(found.1)
}

/// The text of the assembly of the whole problem.
pub(crate) fn assembly_text<'a>(
    alloc: Global,
    bank: &'a Bank,
    spec: &'a Spec,
) -> Result<Vec<u8>, Halt>
    requires plan { IsPlanFor bank.now spec.now }
    ensures text { IfOk result (λ text. TellsForm bank.now spec.now text.items) }
    ensures halts { IfErr result (HaltsAtBase bank.now spec.now) }
{
    let (assembled, form, proved) = found_form(alloc, bank, spec)?;
    let text = form_text(alloc, assembled.problem(), &form, proved, assembled.tree())?;
    Ok(text)
}
