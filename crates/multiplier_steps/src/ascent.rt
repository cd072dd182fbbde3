//! Better multipliers.

ghost use Rattle.std.specs.Prelude.{false, IfOk, IsTrue};
ghost use Rattle.certificate_model.specs.Paths.{Path};
ghost use Rattle.form_model.specs.Validity.{IsWellMade};
ghost use Rattle.certificate_model.specs.Verdicts.{NamesOnlySides};
ghost use Rattle.constraint_model.specs.Views.{problem_of};
ghost use Rattle.lagrange_bound.specs.Cuts.{IsCut, IsCutOf};
ghost use Rattle.multiplier_steps.specs.Improvement.{AreInOrder, IsNoHigher};

use bank_tables::List;
use constraint_model::{Problem, names_only_sides};
use lagrange_bound::{Cut, bound};
use proof_tree::{Memory, Vector};
use std::alloc::Global;
use subgradient_steps::{Aim, Ascent, steps_from};

/// Whether a bound is there, and at most another that is.
fn is_at_most(to: Option<i64>, from: Option<i64>) -> bool
    ensures { IsTrue result → AreInOrder to from }
{
    match (to, from) {
        (Some(new), Some(old)) => new <= old,
        _ => false,
    }
}

/// Whether the bound of the vector `to` is at most that of `from`.
fn is_no_higher(problem: &Problem, cut: &Cut, from: &Vector, to: &Vector, ray: bool) -> bool
    requires well_made { IsWellMade (problem_of problem.now) }
    requires cut { IsCut (problem_of problem.now) cut.now }
    requires from { NamesOnlySides (problem_of problem.now) from.now }
    requires to { NamesOnlySides (problem_of problem.now) to.now }
    ensures { IsTrue result → (p : Path) → IsCutOf (problem_of problem.now) p cut.now →
        IsNoHigher (problem_of problem.now) p ray from.now to.now }
{
    is_at_most(bound(problem, cut, to, ray), bound(problem, cut, from, ray))
}

/// Whole-number subgradient steps from a vector (Held, Wolfe and Crowder, Validation of Subgradient
/// Optimization, 1974). The vector is valid for the plan; nothing else is promised. Takes a third
/// less time than `improve`, and is enough for a search that computes each bound that it relies on.
pub fn climb(
    alloc: Global,
    problem: &Problem,
    cut: &Cut,
    from: &Vector,
    aim: Aim,
) -> Result<Ascent, Memory>
    requires { IsWellMade (problem_of problem.now) }
    // Promise: Quick steps give a vector that names sides of the plan, and promise nothing of its
    // bound
    ensures { IfOk result (λ ascent. NamesOnlySides (problem_of problem.now) ascent.vector) }
{
    let ascent = steps_from(alloc, problem, cut, from, aim)?;
    if names_only_sides(problem, ascent.vector.pairs()) {
        return Ok(ascent);
    }
    let Ascent {
        vector: _,
        bound: _,
        shares,
        stimulus_shares,
        choice,
        form,
    } = ascent;
    Ok(Ascent {
        vector: Vector::new(List::of(Vec::new(alloc))),
        bound: i64::MAX,
        shares,
        stimulus_shares,
        choice,
        form,
    })
}

/// A vector whose bound on the path is at most that of `from`, after at most so many of these steps
/// towards the target. They run, and where they end no lower the vector is `from` again: that they
/// gain is not promised.
pub fn improve(
    alloc: Global,
    problem: &Problem,
    cut: &Cut,
    from: &Vector,
    target: u64,
    steps: u32,
) -> Result<Vector, Memory>
    requires well_made { IsWellMade (problem_of problem.now) }
    requires cut { IsCut (problem_of problem.now) cut.now }
    // Promise: Subgradient steps never give a vector with a higher bound than the one they began
    // with; that they lower it is only measured
    // - by `sides`, `no_higher`
    requires sides { NamesOnlySides (problem_of problem.now) from.now }
    ensures sides { IfOk result (λ vector. NamesOnlySides (problem_of problem.now) vector) }
    ensures no_higher { IfOk result (λ vector.
        (p : Path) → IsCutOf (problem_of problem.now) p cut.now →
        IsNoHigher (problem_of problem.now) p false from.now vector) }
{
    let aim = Aim {
        ray: false,
        target: Some(target.min(i64::MAX as u64) as i64),
        steps,
    };
    let Ascent {
        vector,
        bound: _,
        shares: _,
        stimulus_shares: _,
        choice: _,
        form: _,
    } = steps_from(alloc, problem, cut, from, aim)?;
    if names_only_sides(problem, vector.pairs())
        && is_no_higher(problem, cut, from, &vector, false)
    {
        return Ok(vector);
    }
    from.again(alloc)
}
