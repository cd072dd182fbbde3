//! Whether a proof tree shows what a record claims.

ghost use Rattle.std.specs.Prelude.{◌≡◌, ◌↔◌, IsTrue, IfOk, IfErr};
ghost use Rattle.std.specs.Option.{option_map, option_copied};
ghost use Rattle.bank_tables.specs.Items.{has};
ghost use Rattle.form_model.specs.Validity.{IsWellMade};
ghost use Rattle.constraint_model.specs.Views.{problem_of};
ghost use Rattle.history_model.specs.Judging.{claim_of_mark, claim_of_cause, IsAsked, Shows};
ghost use Rattle.exam_session.specs.Claims.{IsNotShown};

use bank_tables::ItemSet;
use certificate_check::{Verdict, check, spent};
use constraint_model::Problem;
use history_model::{Cause, Claim, Illegal};
use proof_tree::Tree;

/// What the mark of a form claims.
pub(crate) fn claim_of_mark(proved: bool) -> Claim
    ensures { result ≡ claim_of_mark proved }
{
    if proved {
        Claim::FormIsBest
    } else {
        Claim::BudgetIsSpent
    }
}

/// What the cause of setting eligibility aside claims.
pub(crate) fn claim_of_cause(cause: Cause) -> Claim
    ensures { result ≡ claim_of_cause cause }
{
    match cause {
        Cause::NoForm => Claim::NoneIsForm,
        Cause::Spent => Claim::BudgetIsSpent,
    }
}

/// Whether a verdict is the one that a claim asks for.
fn is_asked(claim: Claim, verdict: Verdict) -> bool
    ensures { IsTrue result ↔ IsAsked claim verdict }
{
    match claim {
        Claim::FormIsBest => verdict == Verdict::Optimal,
        Claim::NoneIsForm => verdict == Verdict::NoForm,
        Claim::BudgetIsSpent => matches!(verdict, Verdict::Partial(_)),
    }
}

/// Tests whether a tree of so many nodes shows a claim of a problem, with a form or none: NotSpent,
/// then Tree, where it doesn't.
pub(crate) fn shows(
    problem: &Problem,
    form: Option<&ItemSet>,
    claim: Claim,
    nodes: u16,
    tree: Option<&Tree>,
) -> Result<(), Illegal>
    requires { IsWellMade (problem_of problem.now) }
    ensures shown { IfOk result
        (λ _. Shows (problem_of problem.now)
        (option_map has (option_copied form.entry)) problem.now.spec.now.budget nodes claim
        (option_copied tree.entry)) }
    ensures reason { IfErr result
        (IsNotShown (problem_of problem.now)
        (option_map has (option_copied form.entry)) problem.now.spec.now.budget nodes claim
        (option_copied tree.entry)) }
{
    let Some(tree) = tree else {
        return Err(Illegal::NotSpent(nodes));
    };
    if tree.nodes().len() != nodes as usize {
        return Err(Illegal::NotSpent(nodes));
    }
    if claim == Claim::BudgetIsSpent && !spent(problem, tree, problem.spec.budget() as u16) {
        return Err(Illegal::NotSpent(nodes));
    }
    let verdict = check(problem, form, tree);
    if !is_asked(claim, verdict) {
        return Err(Illegal::Tree(verdict));
    }
    Ok(())
}
