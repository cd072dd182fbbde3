//! The prices that a vector of multipliers puts on rows and stimuli.

ghost use Rattle.std.specs.Prelude.{◌≡◌, ◌*◌, ◌<◌, All, length, pos, slice_index, ◌*ℤ◌};
ghost use Rattle.bank_tables.specs.Sums.{total_z};
ghost use Rattle.certificate_model.specs.ProofTrees.{IsVector};
ghost use Rattle.certificate_model.specs.Ranges.{AreMultipliers, IsWithin};
ghost use Rattle.certificate_model.specs.Relaxed.{multiplier};
ghost use Rattle.form_model.specs.Validity.{IsWellMade};
ghost use Rattle.certificate_model.specs.Weights.{rows_constant, stimulus_activity, stimulus_share};
ghost use Rattle.constraint_model.specs.Views.{problem_of};
ghost use Rattle.lagrange_bound.specs.Ranges.{bounds_top};

use crate::counting::bounds_of;
use constraint_model::prices::{bounds_price, price};
use constraint_model::{Problem, Row};
use proof_tree::Vector;

/// The multiplier of each side, the last two of which are those of the cap; a side that the vector
/// doesn't name has 0.
pub fn sides_of(vector: &Vector) -> [u32; 386]
    requires { All (λ pair. pair.0 < 386) vector.now }
    ensures value { slice_index result ≡ multiplier vector.now }
    ensures high { AreMultipliers (slice_index result) }
    ensures vector { IsVector 0 vector.now }
{
    let pairs = vector.pairs();
    let mut sides = [0u32; 386];
    for k in 0..pairs.len() {
        let (side, multiplier) = pairs[pairs.len() - 1 - k];
        sides[side as usize] = multiplier;
    }
    sides
}

/// The price of the bounds of all rows.
pub fn rows_constant(problem: &Problem, sides: &[u32; 386]) -> i64
    requires well_made { IsWellMade (problem_of problem.now) }
    requires sides { AreMultipliers (slice_index sides.now) }
    ensures value { result ≡ rows_constant (problem_of problem.now) (slice_index sides.now) }
    ensures within { IsWithin (128 * bounds_top) result }
{
    let rows = problem.spec.rows();
    let mut sum = 0i64;
    for r in 0..rows.len() {
        sum += bounds_price(sides, 2 * r, bounds_of(&rows[r]));
    }
    sum
}

/// The price, where the row counts stimuli.
fn price_of_stimuli(row: &Row, price: i64) -> i64
    requires { IsWithin 16777216 price }
    ensures value { result ≡ price *ℤ pos (stimulus_activity row.now) }
    ensures within { IsWithin 16777216 result }
{
    match row {
        Row::Stimuli { .. } => price,
        _ => 0,
    }
}

/// The price of the rows that count stimuli: what they add to the weight of each stimulus.
pub fn rows_on_stimuli(problem: &Problem, sides: &[u32; 386]) -> i64
    requires well_made { IsWellMade (problem_of problem.now) }
    requires sides { AreMultipliers (slice_index sides.now) }
    ensures value { result ≡
        total_z (length problem.now.spec.now.rows)
        (stimulus_share (problem_of problem.now) (slice_index sides.now)) }
    ensures within { IsWithin (128 * 16777216) result }
{
    let rows = problem.spec.rows();
    let mut sum = 0i64;
    for r in 0..rows.len() {
        sum += price_of_stimuli(&rows[r], price(sides, 2 * r));
    }
    sum
}
