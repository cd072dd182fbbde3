//! The cap: what a free item of an open stimulus weighs at most. What it has above goes to its
//! stimulus.

ghost use Rattle.std.specs.Prelude.{◌≡◌, ℕ, suc, ◌+◌, ◌<◌, ◌==◌, cond, ◌+ℤ◌, ◌-ℤ◌, pos, Some, slice_index};
ghost use Rattle.bank_tables.specs.Sums.{sum_in_z};
ghost use Rattle.bank_tables.specs.Tables.{size, stimulus};
ghost use Rattle.certificate_model.specs.Relaxed.{cap_side, excess_over, is_linked};
ghost use Rattle.certificate_model.specs.Weights.{price};
ghost use Rattle.certificate_model.specs.Ranges.{AreMultipliers, IsWithin, at};
ghost use Rattle.form_model.specs.Validity.{IsWellMade};
ghost use Rattle.constraint_model.specs.Views.{problem_of};
ghost use Rattle.certificate_check.specs.Caps.{has_cap};
ghost use Rattle.certificate_check.specs.Cuts.{path_of, IsStanding};
ghost use Rattle.certificate_check.specs.Weights.{item_top, excess_top, excess_at};

use crate::standing::Standing;
use bank_tables::sides::{CAP_HIGH, CAP_LOW};
use constraint_model::Problem;

/// Whether a vector with these multipliers has a cap: it names one of the cap's sides.
pub fn has_cap(sides: &[u32; 386]) -> bool
    ensures { result ≡ has_cap (slice_index sides.now) }
{
    sides[CAP_LOW as usize] != 0 || sides[CAP_HIGH as usize] != 0
}

/// The cap: the multiplier of its low side less that of its high side.
pub fn cap(sides: &[u32; 386]) -> i64
    requires { AreMultipliers (slice_index sides.now) }
    ensures cap { result ≡ price (slice_index sides.now) cap_side }
    ensures within { IsWithin 16777216 result }
{
    sides[CAP_LOW as usize] as i64 - sides[CAP_HIGH as usize] as i64
}

/// What a weight has above the cap.
fn above(weight: i64, cap: i64) -> i64
    requires cap { IsWithin 16777216 cap }
    requires weight { IsWithin item_top weight }
    ensures value { result ≡ excess_over (Some cap) weight }
    ensures within { IsWithin (item_top + 16777216) result }
    ensures rest { IsWithin item_top (weight -ℤ result) }
{
    if weight > cap { weight - cap } else { 0 }
}

/// Whether an item is a free item of an open stimulus.
fn is_linked(problem: &Problem, standing: &Standing, item: u16) -> bool
    requires well_made { IsWellMade (problem_of problem.now) }
    requires standing { IsStanding (problem_of problem.now) standing.now }
    requires item { item < size problem.now.bank.now }
    ensures { result ≡ is_linked (problem_of problem.now) (path_of standing.now.cut) item }
{
    let stimulus = problem.bank.stimulus(item);
    stimulus != 0 && standing.free.has(item) && standing.opened.has(stimulus as u16)
}

/// What an item has above the cap, where it is a free item of an open stimulus.
fn excess(
    problem: &Problem,
    standing: &Standing,
    sides: &[u32; 386],
    weights: &[i64; 512],
    item: u16,
) -> i64
    requires well_made { IsWellMade (problem_of problem.now) }
    requires standing { IsStanding (problem_of problem.now) standing.now }
    requires sides { AreMultipliers (slice_index sides.now) }
    requires item { item < size problem.now.bank.now }
    requires within { IsWithin item_top (at weights.now item) }
    ensures value { result
        ≡ excess_at (problem_of problem.now) (path_of standing.now.cut)
        (slice_index sides.now) weights.now item }
    ensures within { IsWithin (item_top + 16777216) result }
    ensures rest { IsWithin item_top (at weights.now item -ℤ result) }
{
    if is_linked(problem, standing, item) {
        above(weights[item as usize], cap(sides))
    } else {
        0
    }
}

/// The weight of an item under the cap.
fn capped_weight(
    problem: &Problem,
    standing: &Standing,
    sides: &[u32; 386],
    weights: &[i64; 512],
    item: u16,
) -> i64
    requires well_made { IsWellMade (problem_of problem.now) }
    requires standing { IsStanding (problem_of problem.now) standing.now }
    requires sides { AreMultipliers (slice_index sides.now) }
    requires item { item < size problem.now.bank.now }
    requires within { IsWithin item_top (at weights.now item) }
    ensures value { result
        ≡ at weights.now item -ℤ excess_at (problem_of problem.now) (path_of standing.now.cut)
        (slice_index sides.now) weights.now item }
    ensures within { IsWithin item_top result }
{
    weights[item as usize] - excess(problem, standing, sides, weights, item)
}

/// The weight of each item of the bank under the cap.
pub fn capped_weights(
    problem: &Problem,
    standing: &Standing,
    sides: &[u32; 386],
    weights: &[i64; 512],
) -> [i64; 512]
    requires well_made { IsWellMade (problem_of problem.now) }
    requires standing { IsStanding (problem_of problem.now) standing.now }
    requires sides { AreMultipliers (slice_index sides.now) }
    requires within { (i : ℕ) → i < size problem.now.bank.now
        → IsWithin item_top (at weights.now i) }
    ensures value { (i : ℕ) → i < size problem.now.bank.now
        → at result i ≡ at weights.now i -ℤ excess_at (problem_of problem.now)
        (path_of standing.now.cut) (slice_index sides.now) weights.now i }
    ensures within { (i : ℕ) → i < size problem.now.bank.now → IsWithin item_top (at result i) }
{
    let mut capped = [0i64; 512];
    for i in 0..problem.bank.items() {
        capped[i as usize] = capped_weight(problem, standing, sides, weights, i);
    }
    capped
}

/// Adds a number to what the items of a stimulus have above the cap; 0 is no stimulus.
fn add_excess(excesses: &mut [i64; 64], which: u8, by: i64)
    requires which { which < 65 }
    requires excesses { (k : ℕ) → k < 64 → IsWithin excess_top (at excesses.old k) }
    requires by { IsWithin (item_top + 16777216) by }
    ensures { (k : ℕ) → k < 64
        → at excesses.new k ≡ at excesses.old k +ℤ cond (which == suc k) by (pos 0) }
{
    if which != 0 {
        excesses[which as usize - 1] += by;
    }
}

/// What the free items of each open stimulus have above the cap; that of stimulus `s` is at
/// `s - 1`.
pub fn excesses_of(
    problem: &Problem,
    standing: &Standing,
    sides: &[u32; 386],
    weights: &[i64; 512],
) -> [i64; 64]
    requires well_made { IsWellMade (problem_of problem.now) }
    requires standing { IsStanding (problem_of problem.now) standing.now }
    requires sides { AreMultipliers (slice_index sides.now) }
    requires within { (i : ℕ) → i < size problem.now.bank.now
        → IsWithin item_top (at weights.now i) }
    ensures value { (k : ℕ) → k < 64
        → at result k ≡ sum_in_z (size problem.now.bank.now)
        (λ i. stimulus problem.now.bank.now i == suc k)
        (excess_at (problem_of problem.now) (path_of standing.now.cut)
        (slice_index sides.now) weights.now) }
    ensures within { (k : ℕ) → k < 64 → IsWithin excess_top (at result k) }
{
    let mut excesses = [0i64; 64];
    for i in 0..problem.bank.items() {
        let above = excess(problem, standing, sides, weights, i);
        add_excess(&mut excesses, problem.bank.stimulus(i), above);
    }
    excesses
}
