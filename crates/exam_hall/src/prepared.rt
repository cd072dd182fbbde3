//! What was assembled ahead of an answer.

ghost use Rattle.std.specs.Prelude.{◌≡◌, ◌↔◌, Some, IsTrue, IfSome};
ghost use Rattle.bank_tables.specs.Items.{AreWords};
ghost use Rattle.branch_bound.specs.Assembled.{KeepsPromise};
ghost use Rattle.exam_hall.specs.Prepared.{IsSameProblem, HasItemSets, KeepsFor};

use bank_tables::ItemSet;
use branch_bound::Assembled;
use constraint_model::Problem;

/// What is true of a set by its type.
fn is_item_set(set: &ItemSet)
    ensures { AreWords set.now }
{
    let _ = set.count();
}

fn start_is_item_set(start: &Option<ItemSet>)
    ensures { IfSome start.now AreWords }
{
    if let Some(set) = start {
        is_item_set(set);
    }
}

/// What is true of a problem by the type of its sets.
fn has_item_sets(problem: &Problem)
    ensures { HasItemSets problem.now }
{
    is_item_set(&problem.given);
    is_item_set(&problem.barred);
    start_is_item_set(&problem.start);
}

/// Whether two problems of one bank and plan are the same.
pub fn is_same(made: &Problem, asked: &Problem) -> bool
    // Promise: Whether two problems are the same in all but the bank and the plan can be asked
    // - by the clause (`IsSameProblem`)
    ensures { IsTrue result ↔ IsSameProblem made.now asked.now }
{
    made.session == asked.session
        && made.step == asked.step
        && made.aside == asked.aside
        && made.given == asked.given
        && made.barred == asked.barred
        && made.theta == asked.theta
        && made.last == asked.last
        && made.start == asked.start
}

/// What was made, if it was made for this problem.
pub(crate) fn made_for<'a>(
    prepared: Option<Assembled<'a>>,
    asked: &Problem<'a>,
) -> Option<Assembled<'a>>
    ensures made { IfSome result (λ a. prepared.entry ≡ Some a) }
    ensures same { IfSome result (λ a. IsSameProblem a.problem asked.now) }
    ensures promise { IfSome result KeepsPromise }
    ensures keeps { KeepsFor asked.now prepared.entry result }
{
    match prepared {
        Some(assembled) => {
            let _ = assembled.outcome();
            has_item_sets(assembled.problem());
            has_item_sets(asked);
            if is_same(assembled.problem(), asked) {
                Some(assembled)
            } else {
                None
            }
        }
        None => None,
    }
}
