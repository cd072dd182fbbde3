//! Forms in equal state on a path.

ghost use Rattle.std.specs.Prelude.{◌≡◌, ◌<◌, ◌≤◌};
ghost use Rattle.bank_tables.specs.Items.{has};
ghost use Rattle.bank_tables.specs.Tables.{size};
ghost use Rattle.series_model.specs.SeriesTwins.{same_items, is_twin, without_twins};
ghost use Rattle.series_check.specs.Cuts.{problem_of, path_of};

use crate::cut::{SeriesCut, with_item};
use crate::setting::Setting;
use crate::standing::standing_on;
use bank_tables::{Bank, ItemSet};

/// Whether two sets have the same items of the bank.
fn same_items(bank: &Bank, first: &ItemSet, second: &ItemSet) -> bool
    ensures { result ≡ same_items (size bank.now) (has first.now) (has second.now) }
{
    for i in 0..bank.items() {
        if first.has(i) != second.has(i) {
            return false;
        }
    }
    true
}

/// Whether a form has the same items and the same free items as another.
fn is_twin(setting: &Setting, cut: &SeriesCut, form: u8, other: u8) -> bool
    requires few { setting.now.forms ≤ 4 }
    requires form { form < setting.now.forms }
    requires other { other < setting.now.forms }
    ensures { result ≡ is_twin (problem_of setting.now) (path_of cut.now) form other }
{
    let first = standing_on(setting, cut, form);
    let second = standing_on(setting, cut, other);
    same_items(setting.bank, &first.taken, &second.taken)
        && same_items(setting.bank, &first.free, &second.free)
}

/// The path below where the item is put out of the form and of each twin of it.
pub fn without_twins(setting: &Setting, cut: &SeriesCut, form: u8, item: u16) -> SeriesCut
    requires few { setting.now.forms ≤ 4 }
    requires form { form < setting.now.forms }
    requires item { item < 512 }
    ensures { path_of result
        ≡ without_twins (problem_of setting.now) (path_of cut.now) form item }
{
    let mut out = cut.out;
    for g in 0..setting.forms {
        if is_twin(setting, cut, form, g) {
            out = with_item(&out, g, item);
        }
    }
    SeriesCut {
        taken: cut.taken,
        out,
        used: cut.used,
    }
}
