//! The vector of multipliers that the search for a form begins with.

ghost use Rattle.std.specs.Prelude.{IfSome};
ghost use Rattle.std.specs.Option.{option_copied};
ghost use Rattle.form_model.specs.Validity.{IsWellMade};
ghost use Rattle.certificate_model.specs.Verdicts.{NamesOnlySides};
ghost use Rattle.constraint_model.specs.Views.{problem_of};

use constraint_model::{Problem, names_only_sides};
use proof_tree::{Memory, Tree, Vector};
use std::alloc::Global;

/// The vector, if a search for a form of the problem may begin with it.
pub fn fitting<'v>(problem: &Problem, vector: Option<&'v Vector>) -> Option<&'v Vector>
    requires { IsWellMade (problem_of problem.now) }
    ensures { IfSome (option_copied result) (NamesOnlySides (problem_of problem.now)) }
{
    match vector {
        Some(found) if names_only_sides(problem, found.pairs()) => Some(found),
        _ => None,
    }
}

/// A copy of the first vector of a tree, if it has one and it is wanted.
pub fn first_vector(alloc: Global, tree: &Tree, is_wanted: bool) -> Result<Option<Vector>, Memory> {
    match tree.vectors().first() {
        Some(vector) if is_wanted => Ok(Some(vector.again(alloc)?)),
        _ => Ok(None),
    }
}
