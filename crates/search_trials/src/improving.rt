//! Better multipliers by subgradient steps. What is expected was worked out by hand.

ghost use Rattle.form_model.specs.Validity.{IsWellMade};
ghost use Rattle.constraint_model.specs.Views.{problem_of};

use crate::equal::expect_equal;
use crate::settings::Setting;
use crate::trials::{Question, Trial, expect_trials};
use bank_tables::List;
use constraint_model::Problem;
use lagrange_bound::{Cut, bound};
use multiplier_steps::improve;
use proof_tree::Vector;
use std::alloc::Global;
use std::process::Abort;

/// The bound at the root without multipliers, and that of the vector to which steps towards a
/// target lead.
fn bounds_at_root<R: Abort>(
    rt: &R,
    alloc: Global,
    problem: &Problem<'_>,
    target: u64,
) -> [Option<i64>; 2]
    requires { IsWellMade (problem_of problem.now) }
{
    let root = Cut::root(problem);
    let empty = Vector::new(List::of(Vec::new(alloc)));
    let plain = bound(problem, &root, &empty, false);
    match improve(alloc, problem, &root, &empty, target, 100) {
        Ok(improved) => [plain, bound(problem, &root, &improved, false)],
        Err(_) => panic!(rt; "out of memory"),
    }
}

/// The bound without multipliers is this one. Steps towards the highest number lead to one from the
/// lowest to the highest.
pub(crate) fn expect_bound<R: Abort>(
    rt: &R,
    alloc: Global,
    problem: &Problem<'_>,
    plain: i64,
    range: (i64, u32),
)
    requires { IsWellMade (problem_of problem.now) }
{
    let (low, high) = range;
    let [found, improved] = bounds_at_root(rt, alloc, problem, u64::from(high));
    expect_equal(rt, &found, &Some(plain));
    let improved = improved.expect(rt, "a bound");
    assert!(rt; low <= improved);
    assert!(rt; improved <= i64::from(high));
}

/// The three items of most information, 2, 1 and 5, have 9 + 8 + 7 = 24, and 256 * 24 = 6,144.
/// Items 2 and 5 are enemies: with the multiplier 256 on their upper bound they have 8 and 6, the
/// greatest are 8, 8 and 6, and the bound is 256 * (8 + 8 + 6) + 256 * 1 = 5,888. That is 256 times
/// the 23 of the form {1, 2, 3}, so no bound is lower, and one of at most 256 * 23 + 255 = 6,143
/// shows that form best.
const LOWER: [Trial; 1] = [(Setting::Plain(1), &[], Question::Bound(6_144, 5_888, 6_143))];

#[test]
fn steps_find_a_lower_bound(rt: HostRuntime) {
    expect_trials(&rt, rt.alloc(), &LOWER);
}
