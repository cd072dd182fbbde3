//! The path below a branch on a stimulus.

ghost use Rattle.std.specs.Prelude.{◌≡◌};
ghost use Rattle.certificate_model.specs.Paths.{with_stimulus};
ghost use Rattle.constraint_model.specs.Views.{problem_of};
ghost use Rattle.certificate_check.specs.Cuts.{path_of, IsStanding};

use crate::cut::{Cut, items_with};
use crate::standing::Standing;
use constraint_model::Problem;

/// The path below a branch on a stimulus: left it is chosen, right its free items are out.
pub fn below_stimulus(problem: &Problem, standing: &Standing, stimulus: u8, chosen: bool) -> Cut
    requires { IsStanding (problem_of problem.now) standing.now }
    ensures { path_of result
        ≡ with_stimulus (problem_of problem.now) (path_of standing.now.cut) stimulus chosen }
{
    let cut = standing.cut;
    if chosen {
        Cut {
            taken: cut.taken,
            out: cut.out,
            branched_on: cut.branched_on.with(stimulus as u16),
        }
    } else {
        Cut {
            taken: cut.taken,
            out: items_with(problem.bank, &standing.free, stimulus).union(cut.out),
            branched_on: cut.branched_on,
        }
    }
}
