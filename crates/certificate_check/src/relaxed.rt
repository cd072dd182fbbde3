//! The relaxed maximum: an upper bound on the objective of each form on a path.

ghost use Rattle.std.specs.Prelude.{◌≡◌, ℕ, suc, ◌+◌, ◌*◌, ◌<◌, ◌≤◌, ◌+ℤ◌, pos, Bool, All, IsTrue, length, slice_index};
ghost use Rattle.std.specs.Int.{int_max};
ghost use Rattle.bank_tables.specs.Items.{has};
ghost use Rattle.bank_tables.specs.Sums.{total_z};
ghost use Rattle.bank_tables.specs.Tables.{size};
ghost use Rattle.form_model.specs.Forms.{size_in, stimuli_of};
ghost use Rattle.certificate_model.specs.ProofTrees.{IsVector};
ghost use Rattle.certificate_model.specs.Relaxed.{Multipliers, multiplier, IsRelaxedMaximum};
ghost use Rattle.form_model.specs.Validity.{IsWellMade};
ghost use Rattle.constraint_model.specs.Views.{problem_of};
ghost use Rattle.certificate_check.specs.Cuts.{path_of, IsStanding};
ghost use Rattle.certificate_check.specs.Maximum.{IsMaximum, gain_of_stimulus};
ghost use Rattle.certificate_model.specs.Ranges.{AreMultipliers, IsWithin, at};
ghost use Rattle.certificate_model.specs.Weights.{item_weight, stimulus_share};
ghost use Rattle.certificate_check.specs.Caps.{has_cap, AreCapped};
ghost use Rattle.certificate_check.specs.Weights.{item_top, stimulus_top, excess_top, gain_top, maximum_top};

use crate::cap::{capped_weights, excesses_of, has_cap};
use crate::sides::sides_of;
use crate::standing::Standing;
use crate::top::{sum_of, top_of};
use crate::weights::{item_weights, rows_constant, rows_stimulus, stimulus_weight};
use constraint_model::Problem;
use constraint_model::counts::size_in;

/// A weight with what is added to it, if that is above 0.
fn lifted(weight: i64, excess: i64) -> i64
    requires weight { IsWithin stimulus_top weight }
    requires excess { IsWithin excess_top excess }
    ensures value { result ≡ int_max (pos 0) (weight +ℤ excess) }
    ensures within { IsWithin gain_top result }
{
    let sum = weight + excess;
    if sum > 0 { sum } else { 0 }
}

/// What a stimulus adds, where its items have so much above the cap: its weight if it is chosen; if
/// it is open, the greater of 0 and its weight with that.
fn gain_of_stimulus(
    problem: &Problem,
    standing: &Standing,
    sides: &[u32; 386],
    rows: i64,
    excess: i64,
    which: u8,
) -> i64
    requires well_made { IsWellMade (problem_of problem.now) }
    requires standing { IsStanding (problem_of problem.now) standing.now }
    requires sides { AreMultipliers (slice_index sides.now) }
    requires rows { rows ≡ total_z (length problem.now.spec.now.rows)
        (stimulus_share (problem_of problem.now) (slice_index sides.now)) }
    requires few { IsWithin (128 * (16777216 * 65535)) rows }
    requires excess { IsWithin excess_top excess }
    requires first { 0 < which }
    requires last { which ≤ stimuli_of problem.now.bank.now }
    ensures value { result
        ≡ gain_of_stimulus (problem_of problem.now) (path_of standing.now.cut)
        (slice_index sides.now) excess which }
    ensures within { IsWithin gain_top result }
{
    let weight = stimulus_weight(problem, sides, rows, which);
    if standing.chosen.has(which as u16) {
        return weight;
    }
    if standing.opened.has(which as u16) {
        return lifted(weight, excess);
    }
    0
}

/// What the stimuli add.
pub fn gains(
    problem: &Problem,
    standing: &Standing,
    sides: &[u32; 386],
    excesses: &[i64; 64],
) -> i64
    requires well_made { IsWellMade (problem_of problem.now) }
    requires standing { IsStanding (problem_of problem.now) standing.now }
    requires sides { AreMultipliers (slice_index sides.now) }
    requires excesses { (k : ℕ) → k < 64 → IsWithin excess_top (at excesses.now k) }
    ensures value { result
        ≡ total_z (stimuli_of problem.now.bank.now)
        (λ k. gain_of_stimulus (problem_of problem.now) (path_of standing.now.cut)
        (slice_index sides.now) (at excesses.now k) (suc k)) }
    ensures within { IsWithin (64 * gain_top) result }
{
    let rows = rows_stimulus(problem, sides);
    let mut sum = 0i64;
    for k in 0..problem.bank.stimuli() {
        sum += gain_of_stimulus(problem, standing, sides, rows, excesses[k as usize], k + 1);
    }
    sum
}

/// The constant, the weights of the items taken and of the greatest free ones, and what the stimuli
/// add.
fn value_with(
    problem: &Problem,
    standing: &Standing,
    sides: &[u32; 386],
    weights: &[i64; 512],
    excesses: &[i64; 64],
    k: u32,
) -> i64
    requires well_made { IsWellMade (problem_of problem.now) }
    requires standing { IsStanding (problem_of problem.now) standing.now }
    requires sides { AreMultipliers (slice_index sides.now) }
    requires within { (i : ℕ) → i < size problem.now.bank.now
        → IsWithin item_top (at weights.now i) }
    requires excesses { (k : ℕ) → k < 64 → IsWithin excess_top (at excesses.now k) }
    requires enough { k ≤ size_in problem.now.bank.now (has standing.now.free) }
    requires fills { size_in problem.now.bank.now (has standing.now.cut.taken) + k
        ≡ problem.now.spec.now.length }
    ensures within { IsWithin maximum_top result }
    ensures maximum { (v : Multipliers) (ray : Bool) → slice_index sides.now ≡ multiplier v
        → AreCapped (problem_of problem.now)
        (path_of standing.now.cut) v ray weights.now excesses.now
        → IsRelaxedMaximum (problem_of problem.now) (path_of standing.now.cut) v ray result }
{
    let items = problem.bank.items();
    let top = top_of(weights, items, &standing.free, k);
    let taken = sum_of(weights, items, &standing.cut.taken);
    let free = sum_of(weights, items, &top);
    rows_constant(problem, sides) + ((taken + free) + gains(problem, standing, sides, excesses))
}

/// The relaxed maximum of a vector that has a cap, from the weights of its items without the cap. A
/// function clears its arrays when it is called; these are here, so that a vector without a cap
/// does not pay for them.
fn capped_maximum(
    problem: &Problem,
    standing: &Standing,
    sides: &[u32; 386],
    weights: &[i64; 512],
    k: u32,
) -> i64
    requires well_made { IsWellMade (problem_of problem.now) }
    requires standing { IsStanding (problem_of problem.now) standing.now }
    requires sides { AreMultipliers (slice_index sides.now) }
    requires cap { IsTrue (has_cap (slice_index sides.now)) }
    requires within { (i : ℕ) → i < size problem.now.bank.now
        → IsWithin item_top (at weights.now i) }
    requires enough { k ≤ size_in problem.now.bank.now (has standing.now.free) }
    requires fills { size_in problem.now.bank.now (has standing.now.cut.taken) + k
        ≡ problem.now.spec.now.length }
    ensures within { IsWithin maximum_top result }
    ensures maximum { (v : Multipliers) (ray : Bool) → IsVector 0 v
        → slice_index sides.now ≡ multiplier v
        → ((i : ℕ) → i < size problem.now.bank.now
        → at weights.now i ≡ item_weight (problem_of problem.now) (multiplier v) ray i)
        → IsRelaxedMaximum (problem_of problem.now) (path_of standing.now.cut) v ray result }
{
    let capped = capped_weights(problem, standing, sides, weights);
    let excesses = excesses_of(problem, standing, sides, weights);
    value_with(problem, standing, sides, &capped, &excesses, k)
}

/// The relaxed maximum where so many free items fill the test.
fn filled_maximum(
    problem: &Problem,
    standing: &Standing,
    vector: &[(u16, u32)],
    ray: bool,
    k: u32,
) -> i64
    requires well_made { IsWellMade (problem_of problem.now) }
    requires standing { IsStanding (problem_of problem.now) standing.now }
    requires vector { IsVector 0 vector.now }
    requires sides { All (λ pair. pair.0 < 386) vector.now }
    requires enough { k ≤ size_in problem.now.bank.now (has standing.now.free) }
    requires fills { size_in problem.now.bank.now (has standing.now.cut.taken) + k
        ≡ problem.now.spec.now.length }
    ensures { IsRelaxedMaximum (problem_of problem.now)
        (path_of standing.now.cut) vector.now ray result }
{
    let sides = sides_of(vector);
    let weights = item_weights(problem, &sides, ray);
    if !has_cap(&sides) {
        return value_with(problem, standing, &sides, &weights, &[0; 64], k);
    }
    capped_maximum(problem, standing, &sides, &weights, k)
}

/// The relaxed maximum on a path; None where the length is impossible there.
pub fn relaxed_maximum(
    problem: &Problem,
    standing: &Standing,
    vector: &[(u16, u32)],
    ray: bool,
) -> Option<i64>
    requires well_made { IsWellMade (problem_of problem.now) }
    requires standing { IsStanding (problem_of problem.now) standing.now }
    requires vector { IsVector 0 vector.now }
    requires sides { All (λ pair. pair.0 < 386) vector.now }
    ensures { IsMaximum (problem_of problem.now) (path_of standing.now.cut) vector.now ray result }
{
    let length = problem.spec.length();
    let taken = size_in(problem.bank, &standing.cut.taken);
    let free = size_in(problem.bank, &standing.free);
    if length < taken {
        return None;
    }
    if taken + free < length {
        return None;
    }
    Some(filled_maximum(problem, standing, vector, ray, length - taken))
}
