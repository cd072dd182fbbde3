//! The weighted information of an item at the points of a form, each times its multiplier.

ghost use Rattle.std.specs.Prelude.{◌≡◌, ◌+◌, ◌*◌, ◌/◌, ◌<◌, ◌≤◌, cond, true, slice_index};
ghost use Rattle.bank_tables.specs.Sums.{sum_in};
ghost use Rattle.bank_tables.specs.Tables.{size};
ghost use Rattle.series_model.specs.Series.{IsSeriesProblem};
ghost use Rattle.series_model.specs.SeriesBounds.{counts};
ghost use Rattle.series_check.specs.Cuts.{problem_of};
ghost use Rattle.series_check.specs.Points.{point_term, points_at, least_term, least_at};

use crate::setting::Setting;

/// What one grid point adds: its multiplier times its weight times the information; 0 where the
/// point doesn't count.
fn point_term(setting: &Setting, sides: &[u32; 2315], form: u8, point: u8, item: u16) -> u128
    requires problem { IsSeriesProblem (problem_of setting.now) }
    requires form { form < 4 }
    requires point { point < setting.now.bank.now.grid }
    requires item { item < size setting.now.bank.now }
    ensures value { result
        ≡ cond (counts (problem_of setting.now) point)
        (point_term (problem_of setting.now) (slice_index sides.now) form item point) 0 }
    ensures high { result ≤ 4294967295 * 1000000000 }
{
    let weight = setting.weights[point as usize];
    if weight == 0 {
        return 0;
    }
    let multiplier = sides[64 * form as usize + point as usize];
    multiplier as u128 * (weight as u128 * setting.bank.info(item, point) as u128)
}

/// The sum over the points.
pub fn information(setting: &Setting, sides: &[u32; 2315], form: u8, item: u16) -> u128
    requires problem { IsSeriesProblem (problem_of setting.now) }
    requires form { form < 4 }
    requires item { item < size setting.now.bank.now }
    ensures value { result ≡ sum_in setting.now.bank.now.grid (counts (problem_of setting.now))
        (point_term (problem_of setting.now) (slice_index sides.now) form item) }
    ensures high { result ≤ 61 * (4294967295 * 1000000000) }
{
    let mut sum = 0u128;
    for g in 0..setting.bank.grid() {
        sum += point_term(setting, sides, form, g, item);
    }
    sum
}

/// The sum of the multipliers of a form at the points that count.
fn points_of(setting: &Setting, sides: &[u32; 2315], form: u8) -> u128
    requires problem { IsSeriesProblem (problem_of setting.now) }
    requires form { form < 4 }
    ensures value { result ≡ points_at (problem_of setting.now) (slice_index sides.now) form }
    ensures high { result ≤ 61 * 4294967295 }
{
    let mut sum = 0u128;
    for g in 0..setting.bank.grid() {
        if setting.weights[g as usize] > 0 {
            sum += sides[64 * form as usize + g as usize] as u128;
        }
    }
    sum
}

/// The same of all forms.
pub fn points(setting: &Setting, sides: &[u32; 2315]) -> u128
    requires { IsSeriesProblem (problem_of setting.now) }
    ensures value { result ≡ sum_in setting.now.forms (λ _. true)
        (points_at (problem_of setting.now) (slice_index sides.now)) }
    ensures high { result ≤ 4 * (61 * 4294967295) }
{
    let mut sum = 0u128;
    for f in 0..setting.forms {
        sum += points_of(setting, sides, f);
    }
    sum
}

/// The least multiple of a weight that is above a number.
fn least_above(weight: u32, bar: u64) -> u128
    requires some { 0 < weight }
    requires high { weight ≤ 1000 }
    ensures value { result ≡ weight * (bar / weight + 1) }
    ensures high { result ≤ 1000 * 18446744073709551616 }
{
    let times = bar / weight as u64;
    weight as u128 * (times as u128 + 1)
}

/// The least weighted information above a number at a grid point, times its multiplier; 0 where the
/// point doesn't count.
fn least_term(setting: &Setting, sides: &[u32; 2315], form: u8, point: u8, bar: u64) -> u128
    requires problem { IsSeriesProblem (problem_of setting.now) }
    requires form { form < 4 }
    requires point { point < setting.now.bank.now.grid }
    ensures value { result ≡ cond (counts (problem_of setting.now) point)
        (least_term (problem_of setting.now) (slice_index sides.now) bar form point) 0 }
    ensures high { result ≤ 4294967295 * (1000 * 18446744073709551616) }
{
    let weight = setting.weights[point as usize];
    if weight == 0 {
        return 0;
    }
    let least = least_above(weight, bar);
    sides[64 * form as usize + point as usize] as u128 * least
}

/// The sum over the points of a form.
fn least_of_form(setting: &Setting, sides: &[u32; 2315], form: u8, bar: u64) -> u128
    requires problem { IsSeriesProblem (problem_of setting.now) }
    requires form { form < 4 }
    ensures value { result
        ≡ least_at (problem_of setting.now) (slice_index sides.now) bar form }
    ensures high { result ≤ 61 * (4294967295 * (1000 * 18446744073709551616)) }
{
    let mut sum = 0u128;
    for g in 0..setting.bank.grid() {
        sum += least_term(setting, sides, form, g, bar);
    }
    sum
}

/// The same of all forms.
pub fn least_of_pool(setting: &Setting, sides: &[u32; 2315], bar: u64) -> u128
    requires { IsSeriesProblem (problem_of setting.now) }
    ensures value { result ≡ sum_in setting.now.forms (λ _. true)
        (least_at (problem_of setting.now) (slice_index sides.now) bar) }
    ensures high { result ≤ 4 * (61 * (4294967295 * (1000 * 18446744073709551616))) }
{
    let mut sum = 0u128;
    for f in 0..setting.forms {
        sum += least_of_form(setting, sides, f, bar);
    }
    sum
}

/// The sum of the multipliers of common use.
pub fn uses(setting: &Setting, sides: &[u32; 2315]) -> u128
    ensures value { result ≡ sum_in (size setting.now.bank.now) (λ _. true)
        (λ i. slice_index sides.now (256 + i)) }
    ensures high { result ≤ 512 * 4294967295 }
{
    let mut sum = 0u128;
    for i in 0..setting.bank.items() {
        sum += sides[256 + i as usize] as u128;
    }
    sum
}
