//! Subgradient steps on a path.

ghost use Rattle.form_model.specs.Validity.{IsWellMade};
ghost use Rattle.constraint_model.specs.Views.{problem_of};

use crate::incumbent::Incumbent;
use crate::table::Table;
use bank_tables::ItemSet;
use constraint_model::Problem;
use multiplier_steps::Ascent;
use proof_tree::{Memory, Vector};
use std::alloc::Global;

/// The result of steps on a path: the best vector, for each item and stimulus its share, the items
/// chosen last, and the vector's bound as the steps computed it.
#[derive(Drop)]
pub struct Stepped {
    pub vector: Vector,
    pub shares: Vec<u16>,
    pub stimulus_shares: Vec<u16>,
    pub choice: ItemSet,
    pub bound: i64,
}

impl Stepped {
    /// Their result, without the form that they met.
    pub fn of(ascent: Ascent) -> Stepped {
        let Ascent {
            vector,
            bound,
            shares,
            stimulus_shares,
            choice,
            form: _,
        } = ascent;
        Stepped {
            vector,
            shares,
            stimulus_shares,
            choice,
            bound,
        }
    }

    /// The same once more.
    pub fn again(&self, alloc: Global) -> Result<Stepped, Memory> {
        Ok(Stepped {
            vector: self.vector.again(alloc)?,
            shares: Vec::from_slice(alloc, &self.shares)?,
            stimulus_shares: Vec::from_slice(alloc, &self.stimulus_shares)?,
            choice: self.choice,
            bound: self.bound,
        })
    }
}

/// Takes the form that steps met, if it is a better one.
pub fn take_form(problem: &Problem, table: &Table, incumbent: &mut Incumbent, ascent: &Ascent)
    requires { IsWellMade (problem_of problem.now) }
{
    if let Some(items) = &ascent.form {
        incumbent.offer(problem, table, items);
    }
}
