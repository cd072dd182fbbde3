//! The sides that a vector of multipliers may name.

ghost use Rattle.std.specs.Prelude.{◌↔◌, IsTrue};
ghost use Rattle.certificate_model.specs.Verdicts.{NamesOnlySides};
ghost use Rattle.constraint_model.specs.Views.{problem_of};

use crate::problem::Problem;
use bank_tables::sides::{CAP_HIGH, CAP_LOW};

/// Whether each side that a vector names, given as pairs of a side and a multiplier, is one of the
/// plan's, or of the cap.
pub fn names_only_sides(problem: &Problem, vector: &[(u16, u32)]) -> bool
    // Promise: Whether each side that a vector names is one of the plan's, or of the cap
    // - by the clause (`NamesOnlySides`)
    ensures { IsTrue result ↔ NamesOnlySides (problem_of problem.now) vector.now }
{
    let sides = 2 * problem.spec.rows().len() + 2 * problem.bank.stimuli() as usize;
    vector.iter().all(|pair| (pair.0 as usize) < sides || pair.0 == CAP_LOW || pair.0 == CAP_HIGH)
}
