//! What the stimuli of a form add.

ghost use Rattle.std.specs.Prelude.{◌≡◌, suc, ◌+◌, ◌*◌, ◌<◌, ◌≤◌, length, slice_index};
ghost use Rattle.bank_tables.specs.Sums.{total_z};
ghost use Rattle.form_model.specs.Forms.{stimuli_of};
ghost use Rattle.certificate_model.specs.Ranges.{IsWithin};
ghost use Rattle.certificate_model.specs.Weights.{stimulus_share};
ghost use Rattle.series_model.specs.Series.{IsSeriesProblem};
ghost use Rattle.series_check.specs.Cuts.{problem_of, one_form, form_path_of, IsStanding};
ghost use Rattle.series_check.specs.Gains.{stimulus_top, gain_of};

use crate::rows::{stimulus_rows, stimulus_weight};
use crate::setting::Setting;
use crate::standing::Standing;

/// What a stimulus adds: its weight if it is chosen; if it is open, the greater of 0 and its
/// weight.
fn gain(setting: &Setting, standing: &Standing, sides: &[u32; 384], rows: i128, which: u8) -> i128
    requires problem { IsSeriesProblem (problem_of setting.now) }
    requires standing { IsStanding (one_form setting.now) standing.now }
    requires rows { rows ≡ total_z (length setting.now.spec.now.rows)
        (stimulus_share (one_form setting.now) (slice_index sides.now)) }
    requires few { IsWithin (128 * (4294967295 * 65535)) rows }
    requires first { 0 < which }
    requires last { which ≤ stimuli_of setting.now.bank.now }
    ensures value { result
        ≡ gain_of (one_form setting.now) (form_path_of standing.now) (slice_index sides.now) which }
    ensures within { IsWithin stimulus_top result }
{
    let weight = stimulus_weight(setting, sides, rows, which);
    let chosen = standing.chosen.has(which as u16);
    let opened = standing.opened.has(which as u16);
    if chosen || opened && weight > 0 {
        weight
    } else {
        0
    }
}

/// What all of them add.
pub fn gains(setting: &Setting, standing: &Standing, sides: &[u32; 384]) -> i128
    requires problem { IsSeriesProblem (problem_of setting.now) }
    requires standing { IsStanding (one_form setting.now) standing.now }
    ensures value { result ≡ total_z (stimuli_of setting.now.bank.now)
        (λ k. gain_of (one_form setting.now) (form_path_of standing.now)
        (slice_index sides.now) (suc k)) }
    ensures within { IsWithin (64 * stimulus_top) result }
{
    let rows = stimulus_rows(setting, sides);
    let mut sum = 0i128;
    for k in 0..setting.bank.stimuli() {
        sum += gain(setting, standing, sides, rows, k + 1);
    }
    sum
}
