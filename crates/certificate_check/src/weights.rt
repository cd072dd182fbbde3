//! The reduced weights: what each item and stimulus adds to the Lagrangian.

ghost use Rattle.std.specs.Prelude.{◌≡◌, ℕ, ◌+◌, ◌*◌, ◌-ℤ◌, ◌*ℤ◌, ◌<◌, ◌≤◌, ◌≤ℤ◌, pos, cond, get_or, length, slice_index};
ghost use Rattle.bank_tables.specs.Items.{has};
ghost use Rattle.bank_tables.specs.Sums.{total_z};
ghost use Rattle.bank_tables.specs.Tables.{size, quantity};
ghost use Rattle.bank_tables.specs.Validity.{IsBank, HoldsItems};
ghost use Rattle.form_model.specs.Forms.{stimuli_of};
ghost use Rattle.certificate_model.specs.Weights.{weight, item_activity, stimulus_activity, price, item_share, stimulus_share, price_of_stimulus, rows_constant, item_weight, stimulus_weight};
ghost use Rattle.form_model.specs.Validity.{IsRow, IsWellMade};
ghost use Rattle.constraint_model.specs.Views.{problem_of};
ghost use Rattle.certificate_model.specs.Ranges.{AreMultipliers, IsWithin, at};
ghost use Rattle.certificate_check.specs.Columns.{IsColumn};
ghost use Rattle.certificate_check.specs.Weights.{IsAdded, weight_up_to, item_top, stimulus_top};

use crate::column::{Column, no_column, read_column, value_in};
use bank_tables::{Bank, ItemSet};
use constraint_model::counts::{lower_bound, upper_bound};
use constraint_model::prices::bounds_price;
use constraint_model::{Problem, Row};

/// What a stimulus adds to a row.
fn stimulus_activity(row: &Row) -> u32
    ensures part { result ≡ stimulus_activity row.now }
    ensures few { result ≤ 1 }
{
    match row {
        Row::Count {
            set: _,
            low: _,
            high: _,
        } => 0,
        Row::Quantity {
            which: _,
            set: _,
            low: _,
            high: _,
        } => 0,
        Row::Enemies { set: _ } => 0,
        Row::Stimuli { low: _, high: _ } => 1,
    }
}

/// A multiplier less another, times a number.
fn scaled(low: u32, high: u32, part: u32) -> i64
    requires low { low ≤ 16777216 }
    requires high { high ≤ 16777216 }
    requires part { part ≤ 65535 }
    ensures value { result ≡ (pos low -ℤ pos high) *ℤ pos part }
    ensures within { IsWithin (16777216 * 65535) result }
{
    (low as i64 - high as i64) * part as i64
}

/// The multiplier of a low side less that of the high side after it, times a number.
fn net_times(sides: &[u32; 386], side: usize, part: u32) -> i64
    requires sides { AreMultipliers (slice_index sides.now) }
    requires side { side + 1 < 386 }
    requires part { part ≤ 65535 }
    ensures value { result ≡ price (slice_index sides.now) side *ℤ pos part }
    ensures within { IsWithin (16777216 * 65535) result }
{
    scaled(sides[side], sides[side + 1], part)
}

/// What the rows add to the constant.
pub fn rows_constant(problem: &Problem, sides: &[u32; 386]) -> i64
    requires well_made { IsWellMade (problem_of problem.now) }
    requires sides { AreMultipliers (slice_index sides.now) }
    ensures value { result ≡ rows_constant (problem_of problem.now) (slice_index sides.now) }
    ensures within { IsWithin (128 * (16777216 * 33553920)) result }
{
    let rows = problem.spec.rows();
    let mut sum = 0i64;
    for r in 0..rows.len() {
        let row = &rows[r];
        sum += bounds_price(sides, 2 * r, (lower_bound(row), upper_bound(row)));
    }
    sum
}

/// The multiplier of a low side less that of the high side.
fn net_of(low: u32, high: u32) -> i64
    requires low { low ≤ 16777216 }
    requires high { high ≤ 16777216 }
    ensures value { result ≡ pos low -ℤ pos high }
    ensures within { IsWithin 16777216 result }
{
    low as i64 - high as i64
}

/// Adds to the weight of each item in a set the net of two multipliers. The members alone are
/// looked at.
fn add_to_members(bank: &Bank, set: &ItemSet, low: u32, high: u32, weights: &mut [i64])
    requires set { HoldsItems bank.now (has set.now) }
    requires low { low ≤ 16777216 }
    requires high { high ≤ 16777216 }
    requires room { size bank.now ≤ length weights.old }
    requires within { (i : ℕ) → i < size bank.now → IsWithin item_top (at weights.old i) }
    ensures added { (i : ℕ) → i < size bank.now →
        IsAdded (16777216 * 65535) (at weights.old i)
        ((pos low -ℤ pos high) *ℤ pos (cond (has set.now i) 1 0)) (at weights.new i) }
    ensures rest { (i : ℕ) → size bank.now ≤ i → at weights.new i ≡ at weights.old i }
{
    let _items = bank.items();
    let mut at = 0;
    while let Some(item) = set.first_from(at) {
        weights[item as usize] += net_of(low, high);
        at = item + 1;
    }
}

/// Adds to the weight of each item in a set the net of two multipliers times its value.
fn add_values(
    bank: &Bank,
    set: &ItemSet,
    values: &[u32; 512],
    low: u32,
    high: u32,
    weights: &mut [i64],
)
    requires low { low ≤ 16777216 }
    requires high { high ≤ 16777216 }
    requires values { (i : ℕ) → i < size bank.now → get_or values.now i 0 ≤ 65535 }
    requires room { size bank.now ≤ length weights.old }
    requires within { (i : ℕ) → i < size bank.now → IsWithin item_top (at weights.old i) }
    ensures added { (i : ℕ) → i < size bank.now →
        IsAdded (16777216 * 65535) (at weights.old i)
        ((pos low -ℤ pos high) *ℤ pos (cond (has set.now i) (get_or values.now i 0) 0))
        (at weights.new i) }
    ensures rest { (i : ℕ) → size bank.now ≤ i → at weights.new i ≡ at weights.old i }
{
    for i in 0..bank.items() {
        weights[i as usize] += scaled(low, high, value_in(values, set, i));
    }
}

/// Adds to the weight of each item in a set the net of two multipliers times its quantity.
fn add_quantity(
    bank: &Bank,
    set: &ItemSet,
    which: u8,
    low: u32,
    high: u32,
    column: &mut Column,
    weights: &mut [i64],
)
    requires bank { IsBank bank.now }
    requires which { which < bank.now.quantities }
    requires low { low ≤ 16777216 }
    requires high { high ≤ 16777216 }
    requires column { IsColumn bank.now column.old }
    requires room { size bank.now ≤ length weights.old }
    requires within { (i : ℕ) → i < size bank.now → IsWithin item_top (at weights.old i) }
    ensures column { IsColumn bank.now column.new }
    ensures added { (i : ℕ) → i < size bank.now →
        IsAdded (16777216 * 65535) (at weights.old i)
        ((pos low -ℤ pos high) *ℤ pos (cond (has set.now i) (quantity bank.now i which) 0))
        (at weights.new i) }
    ensures rest { (i : ℕ) → size bank.now ≤ i → at weights.new i ≡ at weights.old i }
{
    read_column(bank, which, column);
    add_values(bank, set, &column.values, low, high, weights);
}

/// Adds to the weight of each item what a row adds whose sides have these multipliers.
fn add_row(bank: &Bank, row: &Row, low: u32, high: u32, column: &mut Column, weights: &mut [i64])
    requires bank { IsBank bank.now }
    requires row { IsRow bank.now row.now }
    requires low { low ≤ 16777216 }
    requires high { high ≤ 16777216 }
    requires column { IsColumn bank.now column.old }
    requires room { size bank.now ≤ length weights.old }
    requires within { (i : ℕ) → i < size bank.now → IsWithin item_top (at weights.old i) }
    ensures column { IsColumn bank.now column.new }
    ensures added { (i : ℕ) → i < size bank.now
        → IsAdded (16777216 * 65535) (at weights.old i)
        ((pos low -ℤ pos high) *ℤ pos (item_activity bank.now row.now i)) (at weights.new i) }
    ensures rest { (i : ℕ) → size bank.now ≤ i → at weights.new i ≡ at weights.old i }
{
    match row {
        Row::Count { set, .. } | Row::Enemies { set } => {
            add_to_members(bank, set, low, high, weights)
        }
        Row::Quantity { which, set, .. } => {
            add_quantity(bank, set, *which, low, high, column, weights)
        }
        Row::Stimuli { .. } => {}
    }
}

/// Adds to the weight of each item what a row of the plan adds; most rows have no multiplier.
fn add_row_at(
    problem: &Problem,
    sides: &[u32; 386],
    r: usize,
    column: &mut Column,
    weights: &mut [i64],
)
    requires well_made { IsWellMade (problem_of problem.now) }
    requires sides { AreMultipliers (slice_index sides.now) }
    requires row { r < length problem.now.spec.now.rows }
    requires column { IsColumn problem.now.bank.now column.old }
    requires room { size problem.now.bank.now ≤ length weights.old }
    requires within { (i : ℕ) → i < size problem.now.bank.now
        → IsWithin item_top (at weights.old i) }
    ensures column { IsColumn problem.now.bank.now column.new }
    ensures added { (i : ℕ) → i < size problem.now.bank.now
        → IsAdded (16777216 * 65535) (at weights.old i)
        (item_share (problem_of problem.now) (slice_index sides.now) i r) (at weights.new i) }
    ensures rest { (i : ℕ) → size problem.now.bank.now ≤ i → at weights.new i ≡ at weights.old i }
{
    let low = sides[2 * r];
    let high = sides[2 * r + 1];
    if low != high {
        add_row(
            problem.bank,
            &problem.spec.rows()[r],
            low,
            high,
            column,
            weights,
        );
    }
}

/// What the rows add to the weight of each stimulus.
pub fn rows_stimulus(problem: &Problem, sides: &[u32; 386]) -> i64
    requires well_made { IsWellMade (problem_of problem.now) }
    requires sides { AreMultipliers (slice_index sides.now) }
    ensures value { result
        ≡ total_z (length problem.now.spec.now.rows)
        (stimulus_share (problem_of problem.now) (slice_index sides.now)) }
    ensures within { IsWithin (128 * (16777216 * 65535)) result }
{
    let rows = problem.spec.rows();
    let mut sum = 0i64;
    for r in 0..rows.len() {
        sum += net_times(sides, 2 * r, stimulus_activity(&rows[r]));
    }
    sum
}

/// What its stimulus adds to the weight of an item.
fn price_of_stimulus(problem: &Problem, sides: &[u32; 386], which: u8) -> i64
    requires well_made { IsWellMade (problem_of problem.now) }
    requires sides { AreMultipliers (slice_index sides.now) }
    requires which { which ≤ 64 }
    ensures value { result
        ≡ price_of_stimulus (problem_of problem.now) (slice_index sides.now) which }
    ensures within { IsWithin (16777216 * 65535) result }
{
    if which == 0 {
        0
    } else {
        let side = 2 * problem.spec.rows().len() + 2 * (which as usize - 1);
        net_times(sides, side, 1)
    }
}

/// 256 times the information of an item at the estimate, or 0 for a ray.
fn information(problem: &Problem, ray: bool, item: u16) -> i64
    requires well_made { IsWellMade (problem_of problem.now) }
    requires item { item < size problem.now.bank.now }
    ensures value { result ≡ pos (weight (problem_of problem.now) ray item) }
    ensures high { result ≤ℤ pos 256000000 }
{
    if ray {
        0
    } else {
        (256 * problem.bank.info(item, problem.theta)) as i64
    }
}

/// The weight of an item before a row adds to it.
fn plain_weight(problem: &Problem, sides: &[u32; 386], ray: bool, item: u16) -> i64
    requires well_made { IsWellMade (problem_of problem.now) }
    requires sides { AreMultipliers (slice_index sides.now) }
    requires item { item < size problem.now.bank.now }
    ensures value { result
        ≡ weight_up_to (problem_of problem.now) (slice_index sides.now) ray 0 item }
    ensures within { IsWithin (16777216 * 65535 + 256000000) result }
{
    information(problem, ray, item) + price_of_stimulus(problem, sides, problem.bank.stimulus(item))
}

/// The weight of each item of the bank before a row adds to it.
fn plain_weights(problem: &Problem, sides: &[u32; 386], ray: bool) -> [i64; 512]
    requires well_made { IsWellMade (problem_of problem.now) }
    requires sides { AreMultipliers (slice_index sides.now) }
    ensures value { (i : ℕ) → i < size problem.now.bank.now
        → at result i ≡ weight_up_to (problem_of problem.now) (slice_index sides.now) ray 0 i }
    ensures within { (i : ℕ) → i < size problem.now.bank.now
        → IsWithin (16777216 * 65535 + 256000000) (at result i) }
{
    let mut weights = [0i64; 512];
    for i in 0..problem.bank.items() {
        weights[i as usize] = plain_weight(problem, sides, ray, i);
    }
    weights
}

/// The weight of each item of the bank; of a ray without its information.
pub fn item_weights(problem: &Problem, sides: &[u32; 386], ray: bool) -> [i64; 512]
    requires well_made { IsWellMade (problem_of problem.now) }
    requires sides { AreMultipliers (slice_index sides.now) }
    ensures value { (i : ℕ) → i < size problem.now.bank.now
        → at result i ≡ item_weight (problem_of problem.now) (slice_index sides.now) ray i }
    ensures within { (i : ℕ) → i < size problem.now.bank.now → IsWithin item_top (at result i) }
{
    let rows = problem.spec.rows().len();
    let mut weights = plain_weights(problem, sides, ray);
    let mut column = no_column();
    for r in 0..rows {
        add_row_at(problem, sides, r, &mut column, &mut weights);
    }
    weights
}

/// The weight of a stimulus, from what the rows add to it.
pub fn stimulus_weight(problem: &Problem, sides: &[u32; 386], rows: i64, which: u8) -> i64
    requires well_made { IsWellMade (problem_of problem.now) }
    requires sides { AreMultipliers (slice_index sides.now) }
    requires rows { rows ≡ total_z (length problem.now.spec.now.rows)
        (stimulus_share (problem_of problem.now) (slice_index sides.now)) }
    requires few { IsWithin (128 * (16777216 * 65535)) rows }
    requires first { 0 < which }
    requires last { which ≤ stimuli_of problem.now.bank.now }
    ensures value { result
        ≡ stimulus_weight (problem_of problem.now) (slice_index sides.now) which }
    ensures within { IsWithin stimulus_top result }
{
    let place = which as usize - 1;
    let bound = problem.spec.bounds()[place];
    let side = 2 * problem.spec.rows().len() + 2 * place;
    bounds_price(sides, side, (bound.low, bound.high)) + rows
}
