//! A dive for a form: what is taken most in part is taken or left as a whole, until nothing is
//! taken in part.

ghost use Rattle.form_model.specs.Validity.{IsWellMade};
ghost use Rattle.constraint_model.specs.Views.{problem_of};

use crate::incumbent::Incumbent;
use crate::table::Table;
use crate::tally::is_ruled_out;
use crate::vertices::{Solver, sets_of, target_of};
use constraint_model::Problem;
use lagrange_bound::Cut;
use multiplier_exchanges::{Reached, Vertex};
use proof_tree::Memory;
use search_paths::below;
use std::alloc::Global;

/// Columns that a dive settles, at most.
const DEEPEST: u32 = 100;

/// Exchanges between two of them, at most.
const MOST_EXCHANGES: u32 = 300;

/// Dives from a vertex of the root, and offers the form that it finds.
pub fn dive(
    alloc: Global,
    problem: &Problem,
    table: &Table,
    solver: &mut Solver,
    incumbent: &mut Incumbent,
    from: &Vertex,
) -> Result<(), Memory>
    requires { IsWellMade (problem_of problem.now) }
{
    let mut vertex = from.again(alloc)?;
    dive_with(problem, table, solver, incumbent, &mut vertex)
}

/// Dives with a vertex, which is moved to each path on the way.
fn dive_with(
    problem: &Problem,
    table: &Table,
    solver: &mut Solver,
    incumbent: &mut Incumbent,
    vertex: &mut Vertex,
) -> Result<(), Memory>
    requires { IsWellMade (problem_of problem.now) }
{
    let mut cut = Cut::root(problem);
    for _ in 0..DEEPEST {
        if solver.run(vertex, target_of(incumbent), MOST_EXCHANGES)? != Reached::Best {
            break;
        }
        let Some((column, is_taken)) = vertex.greatest(&solver.relaxation) else {
            let items = vertex.items(&solver.relaxation, &cut.taken);
            incumbent.offer(problem, table, &items);
            break;
        };
        let node = solver.relaxation.branch_on(column);
        cut = below(problem, &cut, &node, is_taken);
        if is_ruled_out(table, &cut) {
            break;
        }
        vertex.hold_on(&solver.relaxation, &sets_of(&cut));
    }
    Ok(())
}
