//! Questions about the whole problem of a bank and its plan, each with its expected answer.

ghost use Rattle.form_model.specs.Validity.{IsPlanFor};

use crate::agreement::expect_best;
use crate::improving::expect_bound;
use crate::judging::{expect_spent, expect_verdict};
use crate::settings::{Setting, bank, draft};
use bank_tables::Bank;
use certificate_check::Verdict;
use constraint_model::{Draft, Problem, Spec};
use std::alloc::Global;
use std::process::Abort;

/// A question with its answer. A set of items is given as bits, of which the lowest is item 0. No
/// bit is no set.
#[derive(Clone, Copy)]
pub(crate) enum Question {
    /// The verdict on the tree with a form.
    Verdict(u8, Verdict),
    /// Whether the tree spends a budget. If there is a set, the session was served from it before.
    Spent(u8, u16, bool),
    /// The objective of the best form; None if there is no form. If the flag is true, the tree of
    /// the search has a branch; if it is false, nothing is compared.
    Best(Option<u64>, bool),
    /// The bound at the root without multipliers is the first number. Steps have the last number as
    /// their target. The bound after them is from the second number to the last.
    Bound(i64, i64, u32),
}

/// The bank and the plan of the problem, the bytes of a tree, and what is asked. The bytes
/// are empty if the question is not about a tree.
pub(crate) type Trial = (Setting, &'static [u8], Question);

/// What owns a bank is a function of its own, since one that also makes a problem of it is dear to
/// prove. The same is true of a plan.
fn expect_answer<R: Abort>(rt: &R, alloc: Global, bank: &Bank, spec: &Spec, trial: &Trial)
    requires { IsPlanFor bank.now spec.now }
{
    let (_, bytes, question) = trial;
    match *question {
        Question::Verdict(form, verdict) => {
            expect_verdict(rt, alloc, &Problem::whole(bank, spec), form, bytes, verdict);
        }
        Question::Spent(start, budget, spent) => {
            expect_spent(
                rt,
                alloc,
                &Problem::whole(bank, spec),
                start,
                bytes,
                budget,
                spent,
            );
        }
        Question::Best(best, branches) => expect_best(rt, alloc, bank, spec, best, branches),
        Question::Bound(plain, low, high) => {
            expect_bound(rt, alloc, &Problem::whole(bank, spec), plain, (low, high));
        }
    }
}

/// The same of the plan of a draft.
fn expect_answer_by<R: Abort>(rt: &R, alloc: Global, bank: &Bank, draft: Draft, trial: &Trial) {
    match Spec::of(alloc, bank, draft) {
        Ok(spec) => expect_answer(rt, alloc, bank, &spec, trial),
        Err(_) => panic!(rt; "no plan"),
    }
}

fn expect_trial<R: Abort>(rt: &R, alloc: Global, trial: &Trial) {
    let (setting, _, _) = trial;
    let bank = bank(rt, alloc, *setting);
    let draft = draft(alloc, *setting).expect(rt, "a draft");
    expect_answer_by(rt, alloc, &bank, draft, trial);
}

/// Each question has its answer.
pub(crate) fn expect_trials<R: Abort>(rt: &R, alloc: Global, trials: &[Trial]) {
    for trial in trials {
        expect_trial(rt, alloc, trial);
    }
}
