//! What the rows and stimuli of a form add to the constant, to each item and to each stimulus.

ghost use Rattle.std.specs.Prelude.{◌≡◌, ◌+◌, ◌*◌, ◌<◌, ◌≤◌, ◌-ℤ◌, ◌*ℤ◌, ◌≤ℤ◌, pos, true, length, slice_index};
ghost use Rattle.bank_tables.specs.Sums.{total_z};
ghost use Rattle.bank_tables.specs.Tables.{size};
ghost use Rattle.bank_tables.specs.Validity.{IsBank};
ghost use Rattle.form_model.specs.Forms.{stimuli_of};
ghost use Rattle.certificate_model.specs.Ranges.{IsWithin};
ghost use Rattle.form_model.specs.Validity.{IsRow};
ghost use Rattle.certificate_model.specs.Weights.{price, bounds_price, item_activity, stimulus_activity, item_share, stimulus_share, price_of_stimulus, item_weight, stimulus_weight, rows_constant};
ghost use Rattle.series_model.specs.Series.{IsSeriesProblem};
ghost use Rattle.series_check.specs.Cuts.{problem_of, one_form};
ghost use Rattle.series_check.specs.Gains.{stimulus_top};

use crate::setting::Setting;
use bank_tables::Bank;
use constraint_model::Row;
use constraint_model::counts::{lower_bound, upper_bound};

/// The multiplier of a low side less that of the high side after it.
fn price(sides: &[u32; 384], side: usize) -> i128
    requires { side + 1 < 384 }
    ensures value { result ≡ price (slice_index sides.now) side }
    ensures within { IsWithin 4294967295 result }
{
    sides[side] as i128 - sides[side + 1] as i128
}

/// A multiplier less another, times a number.
pub fn scaled(low: u32, high: u32, times: u32) -> i128
    requires { times ≤ 65535 }
    ensures value { result ≡ (pos low -ℤ pos high) *ℤ pos times }
    ensures within { IsWithin (4294967295 * 65535) result }
{
    (low as i128 - high as i128) * times as i128
}

/// The price of a side times a number.
fn price_times(sides: &[u32; 384], side: usize, times: u32) -> i128
    requires side { side + 1 < 384 }
    requires times { times ≤ 65535 }
    ensures value { result ≡ price (slice_index sides.now) side *ℤ pos times }
    ensures within { IsWithin (4294967295 * 65535) result }
{
    scaled(sides[side], sides[side + 1], times)
}

/// A multiplier times a bound.
fn product(multiplier: u32, bound: u32) -> i128
    requires { bound ≤ 33553920 }
    ensures value { result ≡ pos multiplier *ℤ pos bound }
    ensures low { pos 0 ≤ℤ result }
    ensures high { result ≤ℤ pos (4294967295 * 33553920) }
{
    (multiplier as u64 * bound as u64) as i128
}

/// The upper bound times the multiplier of the high side, less the lower bound times that of the
/// low side.
fn bounds_price(sides: &[u32; 384], side: usize, low: u32, high: u32) -> i128
    requires side { side + 1 < 384 }
    requires low { low ≤ 33553920 }
    requires high { high ≤ 33553920 }
    ensures value { result ≡ bounds_price (slice_index sides.now) side low high }
    ensures within { IsWithin (4294967295 * 33553920) result }
{
    product(sides[side + 1], high) - product(sides[side], low)
}

/// What an item adds to the activity of a row.
fn item_activity(bank: &Bank, row: &Row, item: u16) -> u32
    requires bank { IsBank bank.now }
    requires row { IsRow bank.now row.now }
    requires item { item < size bank.now }
    ensures activity { result ≡ item_activity bank.now row.now item }
    ensures few { result ≤ 65535 }
{
    match row {
        Row::Count { set, .. } | Row::Enemies { set } => u32::from(set.has(item)),
        Row::Quantity { which, set, .. } => {
            if set.has(item) {
                bank.quantity(item, *which)
            } else {
                0
            }
        }
        Row::Stimuli { .. } => 0,
    }
}

/// What a stimulus adds to it.
fn stimulus_activity(row: &Row) -> u32
    ensures activity { result ≡ stimulus_activity row.now }
    ensures few { result ≤ 1 }
{
    match row {
        Row::Count { .. } | Row::Quantity { .. } | Row::Enemies { .. } => 0,
        Row::Stimuli { .. } => 1,
    }
}

/// What the rows add to the constant.
pub fn rows_constant(setting: &Setting, sides: &[u32; 384]) -> i128
    requires { IsSeriesProblem (problem_of setting.now) }
    ensures value { result ≡ rows_constant (one_form setting.now) (slice_index sides.now) }
    ensures within { IsWithin (128 * (4294967295 * 33553920)) result }
{
    let rows = setting.spec.rows();
    let mut sum = 0i128;
    for r in 0..rows.len() {
        let row = &rows[r];
        sum += bounds_price(sides, 2 * r, lower_bound(row), upper_bound(row));
    }
    sum
}

/// What the rows add to the weight of an item.
fn item_rows(setting: &Setting, sides: &[u32; 384], item: u16) -> i128
    requires problem { IsSeriesProblem (problem_of setting.now) }
    requires item { item < size setting.now.bank.now }
    ensures value { result ≡ total_z (length setting.now.spec.now.rows)
        (item_share (one_form setting.now) (slice_index sides.now) item) }
    ensures within { IsWithin (128 * (4294967295 * 65535)) result }
{
    let rows = setting.spec.rows();
    let mut sum = 0i128;
    for r in 0..rows.len() {
        sum += price_times(sides, 2 * r, item_activity(setting.bank, &rows[r], item));
    }
    sum
}

/// What its stimulus adds to the weight of an item; 0 is no stimulus.
fn price_of_stimulus(setting: &Setting, sides: &[u32; 384], which: u8) -> i128
    requires problem { IsSeriesProblem (problem_of setting.now) }
    requires which { which ≤ 64 }
    ensures value { result
        ≡ price_of_stimulus (one_form setting.now) (slice_index sides.now) which }
    ensures within { IsWithin 4294967295 result }
{
    if which == 0 {
        0
    } else {
        price(
            sides,
            2 * setting.spec.rows().len() + 2 * (which as usize - 1),
        )
    }
}

/// What the rows and its stimulus add to the weight of an item.
pub fn item_weight(setting: &Setting, sides: &[u32; 384], item: u16) -> i128
    requires problem { IsSeriesProblem (problem_of setting.now) }
    requires item { item < size setting.now.bank.now }
    ensures value { result ≡ item_weight (one_form setting.now) (slice_index sides.now) true item }
    ensures within { IsWithin (129 * (4294967295 * 65535)) result }
{
    let which = setting.bank.stimulus(item);
    item_rows(setting, sides, item) + price_of_stimulus(setting, sides, which)
}

/// What the rows add to the weight of each stimulus.
pub fn stimulus_rows(setting: &Setting, sides: &[u32; 384]) -> i128
    requires { IsSeriesProblem (problem_of setting.now) }
    ensures value { result ≡ total_z (length setting.now.spec.now.rows)
        (stimulus_share (one_form setting.now) (slice_index sides.now)) }
    ensures within { IsWithin (128 * (4294967295 * 65535)) result }
{
    let rows = setting.spec.rows();
    let mut sum = 0i128;
    for r in 0..rows.len() {
        sum += price_times(sides, 2 * r, stimulus_activity(&rows[r]));
    }
    sum
}

/// The weight of a stimulus, from what the rows add to it.
pub fn stimulus_weight(setting: &Setting, sides: &[u32; 384], rows: i128, which: u8) -> i128
    requires problem { IsSeriesProblem (problem_of setting.now) }
    requires rows { rows ≡ total_z (length setting.now.spec.now.rows)
        (stimulus_share (one_form setting.now) (slice_index sides.now)) }
    requires few { IsWithin (128 * (4294967295 * 65535)) rows }
    requires first { 0 < which }
    requires last { which ≤ stimuli_of setting.now.bank.now }
    ensures value { result
        ≡ stimulus_weight (one_form setting.now) (slice_index sides.now) which }
    ensures within { IsWithin stimulus_top result }
{
    let place = which as usize - 1;
    let bound = setting.spec.bounds()[place];
    let side = 2 * setting.spec.rows().len() + 2 * place;
    bounds_price(sides, side, bound.low, bound.high) + rows
}
