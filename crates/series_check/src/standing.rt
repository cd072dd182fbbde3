//! The items that are free in a form on a path, and the stimuli that are chosen and open there.

ghost use Rattle.std.specs.Prelude.{◌≡◌, ℕ, ◌<◌, ◌≤◌, ◌&&◌, ◌==◌, not, nat_lt, [], slice_index_or};
ghost use Rattle.bank_tables.specs.Items.{has};
ghost use Rattle.bank_tables.specs.Sums.{any_below};
ghost use Rattle.bank_tables.specs.Tables.{size};
ghost use Rattle.form_model.specs.Problem.{Problem};
ghost use Rattle.series_model.specs.SeriesPaths.{form_path};
ghost use Rattle.series_check.specs.Cuts.{problem_of, one_form, path_of, form_path_of, IsStanding};

use crate::cut::SeriesCut;
use crate::setting::Setting;
use bank_tables::{Bank, ItemSet};
use constraint_model::counts::stimuli_used;

/// The path of one form: the items taken and out, those free, those taken or free, and the stimuli
/// chosen, open, and either.
#[derive(Clone, Copy)]
pub struct Standing {
    pub taken: ItemSet,
    pub out: ItemSet,
    pub free: ItemSet,
    pub may_hold: ItemSet,
    pub chosen: ItemSet,
    pub opened: ItemSet,
    pub may_use: ItemSet,
}

/// The items that are in another form.
fn in_another(taken: &[ItemSet; 4], forms: u8, form: u8) -> ItemSet
    requires { forms ≤ 4 }
    ensures { (i : ℕ) → has result i
        ≡ any_below forms (λ g. not (g == form) && has (slice_index_or taken.now g []) i) }
{
    let mut items = ItemSet::empty();
    for g in 0..forms {
        if g != form {
            items = items.union(taken[g as usize]);
        }
    }
    items
}

/// The items of the bank that are in neither set.
fn items_besides(bank: &Bank, taken: &ItemSet, out: &ItemSet) -> ItemSet
    ensures { (i : ℕ) → has result i
        ≡ (nat_lt i (size bank.now) && (not (has taken.now i) && not (has out.now i))) }
{
    let mut free = ItemSet::empty();
    for i in 0..bank.items() {
        if !taken.has(i) && !out.has(i) {
            free = free.with(i);
        }
    }
    free
}

/// What is free, chosen and open where these items are taken and out.
fn standing_with(bank: &Bank, taken: ItemSet, out: ItemSet) -> Standing
    ensures taken { result.taken ≡ taken }
    ensures out { result.out ≡ out }
    ensures standing { (P : Problem) → P.bank ≡ bank.now → IsStanding P result }
{
    let free = items_besides(bank, &taken, &out);
    let chosen = stimuli_used(bank, &taken);
    let opened = stimuli_used(bank, &free).minus(chosen);
    Standing {
        taken,
        out,
        free,
        may_hold: taken.union(free),
        chosen,
        opened,
        may_use: chosen.union(opened),
    }
}

/// The path of a form.
pub fn standing_on(setting: &Setting, cut: &SeriesCut, form: u8) -> Standing
    requires few { setting.now.forms ≤ 4 }
    requires form { form < setting.now.forms }
    // Promise: The items that are free in a form on a path, and the stimuli that are chosen and
    // open there
    // - by `path`, `standing`
    ensures path { form_path_of result
        ≡ form_path (problem_of setting.now) (path_of cut.now) form }
    ensures standing { IsStanding (one_form setting.now) result }
{
    let others = in_another(&cut.taken, setting.forms, form);
    let out = cut.out[form as usize].union(others);
    standing_with(setting.bank, cut.taken[form as usize], out)
}
