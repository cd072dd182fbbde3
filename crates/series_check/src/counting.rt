//! Rows of a form that are impossible by counting.

ghost use Rattle.std.specs.Prelude.{◌≡◌, ◌<◌, ◌≤◌};
ghost use Rattle.certificate_model.specs.Counting.{length_impossible, row_impossible, stimulus_impossible, is_impossible};
ghost use Rattle.form_model.specs.Forms.{stimuli_of};
ghost use Rattle.form_model.specs.Validity.{IsRow};
ghost use Rattle.series_model.specs.Series.{IsSeriesProblem};
ghost use Rattle.series_check.specs.Cuts.{problem_of, one_form, form_path_of, IsStanding};

use crate::setting::Setting;
use crate::standing::Standing;
use constraint_model::Row;
use constraint_model::counts::{activity, items_of, lower_bound, size_in, upper_bound};

/// Whether too many items are taken, or too few are taken or free.
fn length_impossible(setting: &Setting, standing: &Standing) -> bool
    requires { IsStanding (one_form setting.now) standing.now }
    ensures { result ≡ length_impossible (one_form setting.now) (form_path_of standing.now) }
{
    let length = setting.spec.length();
    let taken = size_in(setting.bank, &standing.taken);
    let may_hold = size_in(setting.bank, &standing.may_hold);
    length < taken || may_hold < length
}

/// Whether what is taken exceeds the upper bound of a row, or what is taken or free is below its
/// lower bound.
fn row_impossible(setting: &Setting, standing: &Standing, row: &Row) -> bool
    requires row { IsRow setting.now.bank.now row.now }
    requires standing { IsStanding (one_form setting.now) standing.now }
    ensures { result ≡ row_impossible (one_form setting.now) (form_path_of standing.now) row.now }
{
    let least = activity(setting.bank, row, &standing.taken, &standing.chosen);
    let most = activity(setting.bank, row, &standing.may_hold, &standing.may_use);
    upper_bound(row) < least || most < lower_bound(row)
}

/// The same for the items of a stimulus.
fn stimulus_impossible(setting: &Setting, standing: &Standing, which: u8) -> bool
    requires problem { IsSeriesProblem (problem_of setting.now) }
    requires first { 0 < which }
    requires last { which ≤ stimuli_of setting.now.bank.now }
    requires standing { IsStanding (one_form setting.now) standing.now }
    ensures { result ≡
        stimulus_impossible (one_form setting.now) (form_path_of standing.now) which }
{
    let least = items_of(setting.bank, which, &standing.taken);
    let most = items_of(setting.bank, which, &standing.may_hold);
    let bound = setting.spec.bounds()[which as usize - 1];
    bound.high < least || standing.chosen.has(which as u16) && most < bound.low
}

/// Whether a row of a form, by number, is impossible by counting: 0 is the length, then come the
/// rows of the plan and the stimuli.
pub fn is_impossible(setting: &Setting, standing: &Standing, row: u8) -> bool
    requires problem { IsSeriesProblem (problem_of setting.now) }
    requires standing { IsStanding (one_form setting.now) standing.now }
    // Promise: A row of a form is impossible by counting, no item is free in a form, a node is
    // sound: each exactly where the definition has it
    // - of `is_impossible`, `is_whole`, `is_sound`
    // - by the clauses
    ensures { result ≡ is_impossible (one_form setting.now) (form_path_of standing.now) row }
{
    if row == 0 {
        return length_impossible(setting, standing);
    }
    let rows = setting.spec.rows();
    let place = row as usize - 1;
    if place < rows.len() {
        row_impossible(setting, standing, &rows[place])
    } else if place < rows.len() + setting.bank.stimuli() as usize {
        stimulus_impossible(setting, standing, (place + 1 - rows.len()) as u8)
    } else {
        false
    }
}
