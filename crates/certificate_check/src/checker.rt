//! The verdict on a proof tree.

ghost use Rattle.std.specs.Prelude.{◌≡◌, ◌↔◌, IsTrue, IsSomeAnd};
ghost use Rattle.std.specs.Option.{option_map, option_copied};
ghost use Rattle.bank_tables.specs.Items.{has};
ghost use Rattle.form_model.specs.Forms.{Best, HasNoForm};
ghost use Rattle.form_model.specs.Validity.{IsWellMade};
ghost use Rattle.certificate_model.specs.Verdicts.{verdict_of, IsFormOrNone, IsVerdict};
ghost use Rattle.constraint_model.specs.Views.{problem_of};

use crate::cut::root_cut;
use crate::walk::walk;
use bank_tables::ItemSet;
use certificate_model::{Reason, Verdict};
use constraint_model::{Problem, is_form};
use proof_tree::Tree;

/// The verdict where all nodes are sound.
fn verdict_of(form: &Option<ItemSet>, open_leaves: u16) -> Verdict
    ensures { result ≡ verdict_of (option_map has form.now) open_leaves }
{
    if open_leaves > 0 {
        return Verdict::Partial(open_leaves);
    }
    match form {
        Some(_) => Verdict::Optimal,
        None => Verdict::NoForm,
    }
}

/// Whether the set is a form, or there is none.
fn is_form_or_none(problem: &Problem, form: &Option<ItemSet>) -> bool
    requires { IsWellMade (problem_of problem.now) }
    ensures { IsTrue result ↔ IsFormOrNone (problem_of problem.now) (option_map has form.now) }
{
    match form {
        Some(items) => is_form(problem, items),
        None => true,
    }
}

/// The verdict, with the form at hand or none.
fn verdict(problem: &Problem, form: &Option<ItemSet>, tree: &Tree) -> Verdict
    requires { IsWellMade (problem_of problem.now) }
    ensures { IsVerdict (problem_of problem.now) (option_map has form.now) tree.now result }
{
    if !is_form_or_none(problem, form) {
        return Verdict::Bad(0, Reason::NotForm);
    }
    let _ = tree.nodes();
    match walk(problem, form, tree, 0, 0, &root_cut(problem)) {
        Ok(walked) => verdict_of(form, walked.open_leaves),
        Err(unsound) => Verdict::Bad(unsound.node, unsound.reason),
    }
}

/// What a proof tree shows, with a form or none: `Optimal`, no set of items is a better form;
/// `NoForm`, no set is a form.
///
/// Takes no memory.
// Promise: `check` and `spent` allocate nothing, cannot fail and cannot overflow
// - of `check`, `spent`
// - by their signatures; no `requires` on sizes
pub fn check(problem: &Problem, form: Option<&ItemSet>, tree: &Tree) -> Verdict
    requires { IsWellMade (problem_of problem.now) }
    // Promise: The verdict on a proof tree is the one by definition: the form is tested first, then
    // the nodes in preorder; the first unsound node is named with its reason, else the Open leaves
    // are counted
    ensures verdict { IsVerdict (problem_of problem.now)
        (option_map has (option_copied form.entry)) tree.now result }
    // Promise: Where the verdict is Optimal, the set is a form and no set of items is a better form
    ensures optimal { result ≡ Verdict.Optimal
        → IsSomeAnd (option_copied form.entry)
        (λ items. Best (problem_of problem.now) (has items)) }
    // Promise: Where the verdict is NoForm, no set of items is a form
    ensures no_form { result ≡ Verdict.NoForm → HasNoForm (problem_of problem.now) }
{
    verdict(problem, &form.copied(), tree)
}
