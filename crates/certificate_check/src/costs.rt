//! What a vector makes of the items and the open stimuli of a path, and the room that a goal leaves
//! (reduced costs).

ghost use Rattle.std.specs.Prelude.{◌≡◌, ℕ, suc, ◌*◌, ◌+◌, ◌<◌, ◌≤◌, ◌+ℤ◌, ◌-ℤ◌, ◌*ℤ◌, pos, All, cond, length, neg_ℤ, slice_index};
ghost use Rattle.std.specs.Int.{int_max};
ghost use Rattle.bank_tables.specs.Items.{has};
ghost use Rattle.bank_tables.specs.Sums.{sum_in_z, total_z};
ghost use Rattle.bank_tables.specs.Tables.{size};
ghost use Rattle.form_model.specs.Forms.{stimuli_of};
ghost use Rattle.form_model.specs.Validity.{IsWellMade};
ghost use Rattle.certificate_model.specs.Fixing.{is_single, places_left};
ghost use Rattle.certificate_model.specs.ProofTrees.{IsVector};
ghost use Rattle.certificate_model.specs.Ranges.{AreMultipliers, IsWithin, at};
ghost use Rattle.certificate_model.specs.Relaxed.{cap_side};
ghost use Rattle.certificate_model.specs.Weights.{price, rows_constant, stimulus_share, stimulus_weight};
ghost use Rattle.constraint_model.specs.Views.{problem_of};
ghost use Rattle.certificate_check.specs.Costs.{AreCosts, margin_top, bound_top, room_top};
ghost use Rattle.certificate_check.specs.Cuts.{path_of, IsStanding};
ghost use Rattle.certificate_check.specs.Maximum.{gain_of_stimulus};
ghost use Rattle.certificate_check.specs.Weights.{item_top, excess_top, gain_top};

use crate::cap::{cap, excesses_of};
use crate::relaxed::gains;
use crate::sides::sides_of;
use crate::standing::Standing;
use crate::top::sum_of;
use crate::weights::{item_weights, rows_constant, rows_stimulus, stimulus_weight};
use constraint_model::Problem;
use constraint_model::counts::size_in;

/// How much more each item weighs than its place costs; what each open stimulus adds if it is used,
/// that of `s` at `s - 1`; and how far the bound of the forms on the path is above what a form no
/// better than the goal may have.
#[derive(Drop)]
pub struct Costs<'a> {
    pub vector: &'a [(u16, u32)],
    pub goal: u32,
    pub margins: [i64; 512],
    pub uses: [i64; 64],
    pub room: i64,
}

/// What a number has above 0.
pub fn above_zero(number: i64) -> i64
    ensures { result ≡ int_max (pos 0) number }
{
    if number > 0 { number } else { 0 }
}

/// How far a number is below 0.
pub fn below_zero(number: i64) -> i64
    requires { IsWithin bound_top number }
    ensures { result ≡ int_max (pos 0) (neg_ℤ number) }
{
    if number < 0 { -number } else { 0 }
}

/// How much more an item weighs than its place costs.
fn margin_at(problem: &Problem, weights: &[i64; 512], place_price: i64, item: u16) -> i64
    requires well_made { IsWellMade (problem_of problem.now) }
    requires place_price { IsWithin 16777216 place_price }
    requires item { item < size problem.now.bank.now }
    requires weight { IsWithin item_top (at weights.now item) }
    ensures value { result ≡ at weights.now item -ℤ place_price }
    ensures within { IsWithin margin_top result }
{
    weights[item as usize] - place_price
}

/// How much more each item of the bank weighs than its place costs.
fn margins_of(problem: &Problem, weights: &[i64; 512], place_price: i64) -> [i64; 512]
    requires well_made { IsWellMade (problem_of problem.now) }
    requires place_price { IsWithin 16777216 place_price }
    requires weights { (i : ℕ) → i < size problem.now.bank.now
        → IsWithin item_top (at weights.now i) }
    ensures value { (i : ℕ) → i < size problem.now.bank.now
        → at result i ≡ at weights.now i -ℤ place_price }
    ensures within { (i : ℕ) → i < size problem.now.bank.now → IsWithin margin_top (at result i) }
{
    let mut margins = [0i64; 512];
    for i in 0..problem.bank.items() {
        margins[i as usize] = margin_at(problem, weights, place_price, i);
    }
    margins
}

/// The weight of a stimulus and what its items have above the price of a place.
fn use_of(problem: &Problem, sides: &[u32; 386], rows: i64, excess: i64, which: u8) -> i64
    requires well_made { IsWellMade (problem_of problem.now) }
    requires sides { AreMultipliers (slice_index sides.now) }
    requires rows { rows ≡ total_z (length problem.now.spec.now.rows)
        (stimulus_share (problem_of problem.now) (slice_index sides.now)) }
    requires few { IsWithin (128 * (16777216 * 65535)) rows }
    requires excess { IsWithin excess_top excess }
    requires first { 0 < which }
    requires last { which ≤ stimuli_of problem.now.bank.now }
    ensures value { result
        ≡ stimulus_weight (problem_of problem.now) (slice_index sides.now) which +ℤ excess }
    ensures within { IsWithin gain_top result }
{
    stimulus_weight(problem, sides, rows, which) + excess
}

/// What each stimulus adds if it is used: its weight, and what its items have above the price of a
/// place.
fn uses_of(problem: &Problem, sides: &[u32; 386], excesses: &[i64; 64]) -> [i64; 64]
    requires well_made { IsWellMade (problem_of problem.now) }
    requires sides { AreMultipliers (slice_index sides.now) }
    requires excesses { (k : ℕ) → k < 64 → IsWithin excess_top (at excesses.now k) }
    ensures value { (k : ℕ) → k < stimuli_of problem.now.bank.now
        → at result k ≡ stimulus_weight (problem_of problem.now) (slice_index sides.now) (suc k)
        +ℤ at excesses.now k }
    ensures within { (k : ℕ) → k < stimuli_of problem.now.bank.now
        → IsWithin gain_top (at result k) }
{
    let rows = rows_stimulus(problem, sides);
    let mut uses = [0i64; 64];
    for k in 0..problem.bank.stimuli() {
        uses[k as usize] = use_of(problem, sides, rows, excesses[k as usize], k + 1);
    }
    uses
}

/// Whether an item is free and of no open stimulus.
fn is_single(problem: &Problem, standing: &Standing, item: u16) -> bool
    requires standing { IsStanding (problem_of problem.now) standing.now }
    requires item { item < size problem.now.bank.now }
    ensures { result ≡ is_single (problem_of problem.now) (path_of standing.now.cut) item }
{
    standing.free.has(item) && !standing.opened.has(problem.bank.stimulus(item) as u16)
}

/// The margin above 0 of an item, if it is a single one.
fn single_margin(problem: &Problem, standing: &Standing, margins: &[i64; 512], item: u16) -> i64
    requires well_made { IsWellMade (problem_of problem.now) }
    requires standing { IsStanding (problem_of problem.now) standing.now }
    requires item { item < size problem.now.bank.now }
    requires margins { IsWithin margin_top (at margins.now item) }
    ensures value { result
        ≡ cond (is_single (problem_of problem.now) (path_of standing.now.cut) item)
        (int_max (pos 0) (at margins.now item)) (pos 0) }
    ensures within { IsWithin margin_top result }
{
    if is_single(problem, standing, item) {
        above_zero(margins[item as usize])
    } else {
        0
    }
}

/// The margins above 0 of the single items.
fn single_margins(problem: &Problem, standing: &Standing, margins: &[i64; 512]) -> i64
    requires well_made { IsWellMade (problem_of problem.now) }
    requires standing { IsStanding (problem_of problem.now) standing.now }
    requires margins { (i : ℕ) → i < size problem.now.bank.now
        → IsWithin margin_top (at margins.now i) }
    ensures value { result ≡ sum_in_z (size problem.now.bank.now)
        (is_single (problem_of problem.now) (path_of standing.now.cut))
        (λ i. int_max (pos 0) (at margins.now i)) }
    ensures within { IsWithin excess_top result }
{
    let mut sum = 0i64;
    for i in 0..problem.bank.items() {
        sum += single_margin(problem, standing, margins, i);
    }
    sum
}

/// The places of the test that no item taken has.
fn places_left(problem: &Problem, standing: &Standing) -> u32
    requires { IsWellMade (problem_of problem.now) }
    ensures value { result ≡ places_left (problem_of problem.now) (path_of standing.now.cut) }
    ensures few { result ≤ 512 }
{
    let length = problem.spec.length();
    let taken = size_in(problem.bank, &standing.cut.taken);
    if taken < length { length - taken } else { 0 }
}

/// A number of places times the price of a place.
fn price_of_places(places: u32, place_price: i64) -> i64
    requires places { places ≤ 512 }
    requires place_price { IsWithin 16777216 place_price }
    ensures value { result ≡ pos places *ℤ place_price }
    ensures within { IsWithin (512 * 16777216) result }
{
    places as i64 * place_price
}

/// A bound of the forms on the path: the constant, the items taken, the price of the places left,
/// the margins above 0 of the single items, and the most of each stimulus.
fn bound_of(
    problem: &Problem,
    standing: &Standing,
    sides: &[u32; 386],
    weights: &[i64; 512],
    margins: &[i64; 512],
    excesses: &[i64; 64],
) -> i64
    requires well_made { IsWellMade (problem_of problem.now) }
    requires standing { IsStanding (problem_of problem.now) standing.now }
    requires sides { AreMultipliers (slice_index sides.now) }
    requires weights { (i : ℕ) → i < size problem.now.bank.now
        → IsWithin item_top (at weights.now i) }
    requires margins { (i : ℕ) → i < size problem.now.bank.now
        → IsWithin margin_top (at margins.now i) }
    requires excesses { (k : ℕ) → k < 64 → IsWithin excess_top (at excesses.now k) }
    ensures value { result
        ≡ (rows_constant (problem_of problem.now) (slice_index sides.now)
        +ℤ sum_in_z (size problem.now.bank.now) (has standing.now.cut.taken) (at weights.now))
        +ℤ ((pos (places_left (problem_of problem.now) (path_of standing.now.cut))
        *ℤ price (slice_index sides.now) cap_side)
        +ℤ (sum_in_z (size problem.now.bank.now)
        (is_single (problem_of problem.now) (path_of standing.now.cut))
        (λ i. int_max (pos 0) (at margins.now i))
        +ℤ total_z (stimuli_of problem.now.bank.now)
        (λ k. gain_of_stimulus (problem_of problem.now) (path_of standing.now.cut)
        (slice_index sides.now) (at excesses.now k) (suc k)))) }
    ensures within { IsWithin bound_top result }
{
    let taken = sum_of(weights, problem.bank.items(), &standing.cut.taken);
    let places = price_of_places(places_left(problem, standing), cap(sides));
    let single = single_margins(problem, standing, margins);
    let stimuli = gains(problem, standing, sides, excesses);
    (rows_constant(problem, sides) + taken) + (places + (single + stimuli))
}

/// How far a bound is above what a form no better than the goal may have.
fn room_of(bound: i64, goal: u32) -> i64
    requires { IsWithin bound_top bound }
    ensures value { result ≡ bound -ℤ pos (256 * goal + 255) }
    ensures within { IsWithin room_top result }
{
    bound - (256 * goal as i64 + 255)
}

/// The costs of a path under a vector, for a goal.
pub fn costs_of<'a>(
    problem: &Problem,
    standing: &Standing,
    vector: &'a [(u16, u32)],
    goal: u32,
) -> Costs<'a>
    requires well_made { IsWellMade (problem_of problem.now) }
    requires standing { IsStanding (problem_of problem.now) standing.now }
    requires vector { IsVector 0 vector.now }
    requires sides { All (λ pair. pair.0 < 386) vector.now }
    ensures vector { result.vector.now ≡ vector.now }
    ensures goal { result.goal ≡ goal }
    ensures costs { AreCosts (problem_of problem.now) (path_of standing.now.cut) result }
{
    let sides = sides_of(vector);
    let weights = item_weights(problem, &sides, false);
    let margins = margins_of(problem, &weights, cap(&sides));
    let excesses = excesses_of(problem, standing, &sides, &weights);
    let bound = bound_of(problem, standing, &sides, &weights, &margins, &excesses);
    Costs {
        vector,
        goal,
        margins,
        uses: uses_of(problem, &sides, &excesses),
        room: room_of(bound, goal),
    }
}
