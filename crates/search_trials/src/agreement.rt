//! The search, the fallback search and the enumeration on small banks. What is expected was worked
//! out by hand.

ghost use Rattle.form_model.specs.Validity.{IsPlanFor, IsWellMade};
ghost use Rattle.constraint_model.specs.Views.{problem_of};

use crate::equal::expect_equal;
use crate::settings::Setting;
use crate::trials::{Question, Trial, expect_trials};
use bank_tables::Bank;
use branch_bound::{Assembled, Outcome, assemble, assemble_by_fallback};
use certificate_model::Node;
use constraint_model::{Problem, Spec, objective};
use form_enumeration::best_form;
use std::alloc::Global;
use std::process::Abort;

/// The objective of the best form among all sets of items; None where no set is a form.
fn enumerated<R: Abort>(rt: &R, problem: &Problem<'_>) -> Option<u64>
    requires { IsWellMade (problem_of problem.now) }
{
    if problem.bank.items() > 16 {
        panic!(rt; "a large bank");
    }
    match best_form(problem) {
        Some(form) => Some(objective(problem, &form)),
        None => None,
    }
}

/// The objective of the form that is proved best; None where it is proved that there is no form.
fn decided<R: Abort>(rt: &R, found: &Assembled<'_>) -> Option<u64>
    requires { IsWellMade (problem_of found.now.problem) }
{
    match found.outcome() {
        Outcome::Found { form, proved } => {
            assert!(rt; proved);
            Some(objective(found.problem(), &form))
        }
        Outcome::NoForm => None,
        Outcome::NoneFound => panic!(rt; "no form, and no proof that there is none"),
    }
}

/// Whether the tree has a branch.
fn has_branch(found: &Assembled<'_>) -> bool {
    for node in found.tree().nodes() {
        if let Node::BranchItem(_) | Node::BranchStimulus(_) = node {
            return true;
        }
    }
    false
}

/// The tree is of the search, not of the fallback search. If `branches` is true, it has a branch.
fn expect_of_search<R: Abort>(rt: &R, found: &Assembled<'_>, branches: bool) {
    assert!(rt; !found.used_fallback());
    if branches {
        assert!(rt; has_branch(found));
    }
}

/// What the search decides. Each search is called in a function of its own, since one that owns
/// what both find is dear to prove.
fn searched<R: Abort>(
    rt: &R,
    alloc: Global,
    bank: &Bank,
    spec: &Spec,
    branches: bool,
) -> Option<u64>
    requires { IsPlanFor bank.now spec.now }
{
    match assemble(alloc, Problem::whole(bank, spec), None, 2_001) {
        Ok(found) => {
            expect_of_search(rt, &found, branches);
            decided(rt, &found)
        }
        Err(_) => panic!(rt; "out of memory"),
    }
}

/// What the fallback search decides.
fn found_by_fallback<R: Abort>(rt: &R, alloc: Global, bank: &Bank, spec: &Spec) -> Option<u64>
    requires { IsPlanFor bank.now spec.now }
{
    match assemble_by_fallback(alloc, Problem::whole(bank, spec), None, 2_001) {
        Ok(found) => decided(rt, &found),
        Err(_) => panic!(rt; "out of memory"),
    }
}

/// The search, the fallback search and the enumeration find a form of this objective. None: they
/// prove that there is no form.
pub(crate) fn expect_best<R: Abort>(
    rt: &R,
    alloc: Global,
    bank: &Bank,
    spec: &Spec,
    best: Option<u64>,
    branches: bool,
)
    requires { IsPlanFor bank.now spec.now }
{
    expect_equal(rt, &searched(rt, alloc, bank, spec, branches), &best);
    expect_equal(rt, &found_by_fallback(rt, alloc, bank, spec), &best);
    expect_equal(rt, &enumerated(rt, &Problem::whole(bank, spec)), &best);
}

const BEST: [Trial; 5] = [
    // At the middle point, with one of items 0 and 1 and not both 2 and 5, {1, 2, 3} has 8 + 9 + 6.
    // Without item 2 at most 8 + 7 + 6 is left, without item 1 at most 5 + 9 + 6, and with both of
    // them item 3 has more than item 4.
    (Setting::Plain(1), &[], Question::Best(Some(23), false)),
    // A form has both items of stimulus 1 or none: the forms are {0, 1, 2}, {0, 1, 3}, {0, 1, 4}
    // and {2, 3, 4}, of 16, 15, 17 and 18. The first two have two stimuli. The three items of most
    // information, 0, 2 and 4, have one item of stimulus 1.
    (Setting::Stimuli, &[], Question::Best(Some(18), false)),
    (Setting::BothStimuli, &[], Question::Best(Some(16), false)),
    // With at most 3 words a form has one item of 2 words: the best is {0, 2}, of 12. Item 0 with
    // half of each of items 1 and 2 has 3 words and 15.5, so each bound of the root is at least
    // that, which is more than 13, and the tree has a branch. A branch divides it: without item 1,
    // or without item 0, at most 12 is left, and with both there are 4 words.
    (Setting::Words(0), &[], Question::Best(Some(12), true)),
    // Two items have 0, 2 or 4 words, so none of the sets has 3. Item 0 with half of each of items
    // 1 and 2 has 3 words, so no ray closes the root, and the tree has a branch.
    (Setting::Words(3), &[], Question::Best(None, true)),
];

#[test]
fn the_searches_agree(rt: HostRuntime) {
    expect_trials(&rt, rt.alloc(), &BEST);
}
