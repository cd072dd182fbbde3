//! Rows of forms that are impossible by counting.

ghost use Rattle.std.specs.Prelude.{◌≤◌, IfSome};
ghost use Rattle.certificate_model.specs.Counting.{IsFirstImpossible};
ghost use Rattle.series_model.specs.Series.{IsSeriesProblem};
ghost use Rattle.series_check.specs.Cuts.{problem_of, one_form, path_of, form_path_of, IsStanding};
ghost use Rattle.series_outcome.specs.Walks.{IsCounted};

use series_check::{SeriesCut, Setting, Standing, is_impossible, standing_on};

/// A row of a form, by number.
#[derive(Clone, Copy, Debug)]
pub struct FormRow {
    pub form: u8,
    pub row: u8,
}

/// The lowest row of a form that is impossible by counting.
fn impossible_row(setting: &Setting, standing: &Standing) -> Option<u8>
    requires problem { IsSeriesProblem (problem_of setting.now) }
    requires standing { IsStanding (one_form setting.now) standing.now }
    ensures first { IsFirstImpossible (one_form setting.now) (form_path_of standing.now) result }
    ensures few { IfSome result (λ row. row ≤ 192) }
{
    let rows = setting.spec.rows().len();
    let last = (rows + setting.bank.stimuli() as usize) as u8;
    for row in 0..last + 1 {
        if is_impossible(setting, standing, row) {
            return Some(row);
        }
    }
    None
}

/// The lowest row that is impossible by counting, of the first form that has one.
pub fn impossible(setting: &Setting, cut: &SeriesCut) -> Option<FormRow>
    requires { IsSeriesProblem (problem_of setting.now) }
    ensures { IsCounted (problem_of setting.now) (path_of cut.now) result }
{
    for form in 0..setting.forms {
        if let Some(row) = impossible_row(setting, &standing_on(setting, cut, form)) {
            return Some(FormRow { form, row });
        }
    }
    None
}
