//! The root: its vector, and a first form.

ghost use Rattle.form_model.specs.Validity.{IsWellMade};
ghost use Rattle.constraint_model.specs.Views.{problem_of};

use crate::incumbent::Incumbent;
use crate::pool::empty_vector;
use crate::repair::nearby_form;
use crate::steps::{Stepped, take_form};
use crate::table::Table;
use bank_tables::ItemSet;
use constraint_model::Problem;
use lagrange_bound::Cut;
use multiplier_steps::{Aim, climb};
use proof_tree::{Memory, Vector};
use std::alloc::Global;

/// Steps of a piece at the root.
const PIECE: u32 = 100;

/// Pieces at the root, at most.
const PIECES: u32 = 3;

/// The least that a piece has to gain for another one to follow.
const LEAST_GAIN: i64 = 512;

/// What steps at the root aim at: to close it, where there is a form.
fn target_of(incumbent: &Incumbent) -> Option<i64> {
    match incumbent.form {
        Some(_) => Some(incumbent.top()),
        None => None,
    }
}

/// The vector that the steps at the root begin with: a copy of the warm one, else the empty one.
fn first_vector(alloc: Global, warm: Option<&Vector>) -> Result<Vector, Memory> {
    match warm {
        Some(vector) => vector.again(alloc),
        None => Ok(empty_vector(alloc)),
    }
}

/// The result of no steps, at a vector.
fn no_steps(alloc: Global, vector: Vector) -> Stepped {
    Stepped {
        vector,
        shares: Vec::new(alloc),
        stimulus_shares: Vec::new(alloc),
        choice: ItemSet::empty(),
        bound: i64::MAX,
    }
}

/// A piece of steps at the root, and a form near to where they lead if there is none yet.
fn piece(
    alloc: Global,
    problem: &Problem,
    table: &Table,
    incumbent: &mut Incumbent,
    cut: &Cut,
    from: &Vector,
) -> Result<Stepped, Memory>
    requires { IsWellMade (problem_of problem.now) }
{
    let aim = Aim {
        ray: false,
        target: target_of(incumbent),
        steps: PIECE,
    };
    let ascent = climb(alloc, problem, cut, from, aim)?;
    take_form(problem, table, incumbent, &ascent);
    if incumbent.form.is_none() {
        let items = nearby_form(alloc, table, &ascent.vector, &ascent.choice)?;
        incumbent.offer(problem, table, &items);
    }
    Ok(Stepped::of(ascent))
}

/// Steps at the root, piece by piece, and a form near to where they lead if there is none yet. The
/// first piece begins with the warm vector, if there is one.
pub fn steps_at_root(
    alloc: Global,
    problem: &Problem,
    table: &Table,
    incumbent: &mut Incumbent,
    cut: &Cut,
    warm: Option<&Vector>,
) -> Result<Stepped, Memory>
    requires { IsWellMade (problem_of problem.now) }
{
    let mut stepped = no_steps(alloc, first_vector(alloc, warm)?);
    for _ in 0..PIECES {
        let next = piece(alloc, problem, table, incumbent, cut, &stepped.vector)?;
        let gained = stepped.bound.saturating_sub(next.bound);
        stepped = next;
        if gained < LEAST_GAIN || stepped.bound <= incumbent.top() {
            break;
        }
    }
    Ok(stepped)
}
