//! The relaxed maximum of a path.

ghost use Rattle.std.specs.Prelude.{◌≡◌, ℕ, suc, ◌+◌, ◌*◌, ◌<◌, ◌≤◌, cond, length, pos, slice_index, IfSome, ◌+ℤ◌};
ghost use Rattle.std.specs.Int.{int_max};
ghost use Rattle.bank_tables.specs.Items.{has};
ghost use Rattle.bank_tables.specs.Sums.{total_z};
ghost use Rattle.form_model.specs.Forms.{size_in, stimuli_of};
ghost use Rattle.certificate_model.specs.Paths.{Path};
ghost use Rattle.certificate_model.specs.Ranges.{AreMultipliers, IsWithin, at};
ghost use Rattle.certificate_model.specs.Relaxed.{IsRelaxedMaximum};
ghost use Rattle.form_model.specs.Validity.{IsWellMade};
ghost use Rattle.certificate_model.specs.Verdicts.{NamesOnlySides};
ghost use Rattle.certificate_model.specs.Weights.{stimulus_share, stimulus_weight};
ghost use Rattle.constraint_model.specs.Views.{problem_of};
ghost use Rattle.lagrange_bound.specs.Bounds.{IsBound, IsAboveForms};
ghost use Rattle.lagrange_bound.specs.Cuts.{IsCut, IsCutOf};
ghost use Rattle.lagrange_bound.specs.Links.{gain_on};
ghost use Rattle.lagrange_bound.specs.Ranges.{excesses_top, stimulus_top};

use crate::counting::items_wanted;
use crate::cut::Cut;
use crate::links::{cap_of, cap_weights};
use crate::prices::{rows_constant, rows_on_stimuli, sides_of};
use crate::threshold::sum_of_greatest;
use crate::weights::{item_weights, mark_others, sum_over};
use constraint_model::Problem;
use constraint_model::prices::bounds_price;
use proof_tree::Vector;

/// The reduced weight of a stimulus, with what the rows on stimuli add.
fn stimulus_weight(problem: &Problem, sides: &[u32; 386], rows: i64, which: u16) -> i64
    requires well_made { IsWellMade (problem_of problem.now) }
    requires sides { AreMultipliers (slice_index sides.now) }
    requires rows { IsWithin (128 * 16777216) rows }
    requires first { 0 < which }
    requires last { which ≤ stimuli_of problem.now.bank.now }
    ensures value { rows ≡
        total_z (length problem.now.spec.now.rows)
        (stimulus_share (problem_of problem.now) (slice_index sides.now)) →
        result ≡ stimulus_weight (problem_of problem.now) (slice_index sides.now) which }
    ensures within { IsWithin stimulus_top result }
{
    let place = which as usize - 1;
    let bound = problem.spec.bounds()[place];
    let low_side = 2 * problem.spec.rows().len() + 2 * place;
    bounds_price(sides, low_side, (bound.low, bound.high)) + rows
}

/// What a stimulus of the weight adds: the weight if it is chosen; if it is open, the greater of 0
/// and the weight with what its items have above the cap.
fn gain_of(cut: &Cut, which: u16, weight: i64, excesses: &[i64; 65]) -> i64
    requires which { which ≤ 64 }
    requires weight { IsWithin stimulus_top weight }
    requires excess { IsWithin excesses_top (at excesses.now which) }
    ensures value { result ≡
        cond (has cut.now.chosen which) weight
        (cond (has cut.now.opened which)
        (int_max (pos 0) (weight +ℤ at excesses.now which)) (pos 0)) }
    ensures within { IsWithin (stimulus_top + excesses_top) result }
{
    if cut.chosen.has(which) {
        return weight;
    }
    let raised = weight + excesses[which as usize];
    if cut.opened.has(which) && raised > 0 {
        return raised;
    }
    0
}

/// What the stimuli add, whose items have so much above the cap.
fn gains(problem: &Problem, cut: &Cut, sides: &[u32; 386], excesses: &[i64; 65]) -> i64
    requires well_made { IsWellMade (problem_of problem.now) }
    requires sides { AreMultipliers (slice_index sides.now) }
    requires excesses { (s : ℕ) → s ≤ 64 → IsWithin excesses_top (at excesses.now s) }
    ensures value { result ≡
        total_z (stimuli_of problem.now.bank.now)
        (λ k.
        gain_on (problem_of problem.now) cut.now (slice_index sides.now) excesses.now (suc k)) }
    ensures within { IsWithin (64 * (stimulus_top + excesses_top)) result }
{
    let rows = rows_on_stimuli(problem, sides);
    let mut sum = 0i64;
    for k in 0..problem.bank.stimuli() {
        let which = k as u16 + 1;
        let weight = stimulus_weight(problem, sides, rows, which);
        sum += gain_of(cut, which, weight, excesses);
    }
    sum
}

/// The constant, the weights of the items taken and of the greatest free ones that fill the test,
/// and what the stimuli add.
fn maximum(problem: &Problem, cut: &Cut, vector: &Vector, ray: bool, wanted: u32) -> i64
    requires well_made { IsWellMade (problem_of problem.now) }
    requires sides { NamesOnlySides (problem_of problem.now) vector.now }
    requires fills { size_in problem.now.bank.now (has cut.now.taken) + wanted ≡
        problem.now.spec.now.length }
    requires enough { wanted ≤ size_in problem.now.bank.now (has cut.now.free) }
    ensures { (p : Path) → IsCutOf (problem_of problem.now) p cut.now →
        IsRelaxedMaximum (problem_of problem.now) p vector.now ray result }
{
    let sides = sides_of(vector);
    let items = problem.bank.items();
    let mut weights = item_weights(problem, &sides, ray);
    let taken = sum_over(&weights, items, &cut.taken);
    let excesses = cap_weights(problem.bank, cut, cap_of(&sides), &mut weights);
    mark_others(&mut weights, items, &cut.free);
    let filled = sum_of_greatest(&weights, items, wanted);
    rows_constant(problem, &sides) + ((taken + filled) + gains(problem, cut, &sides, &excesses))
}

/// The relaxed maximum of a vector on a path, or of its ray: at least 256 times the objective of
/// each form on the path (at least 0 for a ray); None exactly where the length is impossible by
/// counting. Takes no memory.
pub fn bound(problem: &Problem, cut: &Cut, vector: &Vector, ray: bool) -> Option<i64>
    requires well_made { IsWellMade (problem_of problem.now) }
    requires cut { IsCut (problem_of problem.now) cut.now }
    requires sides { NamesOnlySides (problem_of problem.now) vector.now }
    // Promise: The bound is the relaxed maximum, none exactly where the length is impossible, and
    // no form on the path exceeds it (256 times its objective; 0 for a ray)
    // - by `maximum`, `above`
    ensures maximum { (p : Path) → IsCutOf (problem_of problem.now) p cut.now →
        IsBound (problem_of problem.now) p vector.now ray result }
    ensures above { IfSome result (λ r. (p : Path) → IsCutOf (problem_of problem.now) p cut.now →
        IsAboveForms (problem_of problem.now) p ray r) }
{
    match items_wanted(problem, cut) {
        None => None,
        Some(wanted) => Some(maximum(problem, cut, vector, ray, wanted)),
    }
}
