//! The items that are in a form or free in one on a path, and the used items.

ghost use Rattle.std.specs.Prelude.{◌≡◌, ◌↔◌, ℕ, ◌<◌, ◌≤◌, ◌&&◌, ◌||◌, ◌==◌, nat_lt, IsTrue, [], slice_index_or};
ghost use Rattle.bank_tables.specs.Items.{has};
ghost use Rattle.bank_tables.specs.Sums.{any_below};
ghost use Rattle.bank_tables.specs.Tables.{size};
ghost use Rattle.series_model.specs.Series.{IsSeriesProblem};
ghost use Rattle.series_model.specs.SeriesPaths.{is_placed, is_live, with_use, is_use_lost, are_uses_many};
ghost use Rattle.series_model.specs.SeriesVerdicts.{IsUseBranch};
ghost use Rattle.series_check.specs.Cuts.{problem_of, path_of};

use crate::cut::{SeriesCut, with_item};
use crate::setting::Setting;
use crate::standing::standing_on;
use bank_tables::{Bank, ItemSet};
use constraint_model::counts::size_in;

/// The items that are in some form.
pub fn placed(setting: &Setting, cut: &SeriesCut) -> ItemSet
    requires { setting.now.forms ≤ 4 }
    ensures { (i : ℕ) → has result i ≡ is_placed (problem_of setting.now) (path_of cut.now) i }
{
    let mut items = ItemSet::empty();
    for f in 0..setting.forms {
        items = items.union(cut.taken[f as usize]);
    }
    items
}

/// The items that are free in some form.
fn live(setting: &Setting, cut: &SeriesCut) -> ItemSet
    requires { setting.now.forms ≤ 4 }
    ensures { (i : ℕ) → has result i ≡ is_live (problem_of setting.now) (path_of cut.now) i }
{
    let mut items = ItemSet::empty();
    for f in 0..setting.forms {
        items = items.union(standing_on(setting, cut, f).free);
    }
    items
}

/// Whether an item is in no form, not used yet, and free in some form.
pub fn may_be_used(setting: &Setting, cut: &SeriesCut, item: u16) -> bool
    requires { IsSeriesProblem (problem_of setting.now) }
    ensures { IsTrue result ↔ IsUseBranch (problem_of setting.now) (path_of cut.now) item }
{
    !placed(setting, cut).has(item) && !cut.used.has(item) && live(setting, cut).has(item)
}

/// Whether some item of the bank is in the set.
fn has_some(bank: &Bank, items: &ItemSet) -> bool
    ensures { result ≡ any_below (size bank.now) (has items.now) }
{
    for i in 0..bank.items() {
        if items.has(i) {
            return true;
        }
    }
    false
}

/// Whether a used item is in no form and free in none.
pub fn is_use_lost(setting: &Setting, cut: &SeriesCut, placed: &ItemSet) -> bool
    requires few { setting.now.forms ≤ 4 }
    requires placed { (i : ℕ) → has placed.now i
        ≡ is_placed (problem_of setting.now) (path_of cut.now) i }
    ensures { result ≡ is_use_lost (problem_of setting.now) (path_of cut.now) }
{
    let lost = cut.used.minus(placed.union(live(setting, cut)));
    has_some(setting.bank, &lost)
}

/// Whether more items are in a form or used than the forms have.
fn are_uses_many(setting: &Setting, cut: &SeriesCut, placed: &ItemSet) -> bool
    requires problem { IsSeriesProblem (problem_of setting.now) }
    requires placed { (i : ℕ) → has placed.now i
        ≡ is_placed (problem_of setting.now) (path_of cut.now) i }
    ensures { result ≡ are_uses_many (problem_of setting.now) (path_of cut.now) }
{
    let sure = placed.union(cut.used);
    setting.forms as u32 * setting.spec.length() < size_in(setting.bank, &sure)
}

/// Whether the used items leave no series.
pub fn are_uses_impossible(setting: &Setting, cut: &SeriesCut) -> bool
    requires { IsSeriesProblem (problem_of setting.now) }
    ensures { result ≡ (is_use_lost (problem_of setting.now) (path_of cut.now)
        || are_uses_many (problem_of setting.now) (path_of cut.now)) }
{
    let placed = placed(setting, cut);
    is_use_lost(setting, cut, &placed) || are_uses_many(setting, cut, &placed)
}

/// The sets of the forms, with an item in each.
fn with_item_in_each(sets: &[ItemSet; 4], forms: u8, item: u16) -> [ItemSet; 4]
    requires few { forms ≤ 4 }
    requires item { item < 512 }
    ensures { (f i : ℕ) → has (slice_index_or result f []) i
        ≡ ((nat_lt f forms && i == item) || has (slice_index_or sets.now f []) i) }
{
    let mut changed = *sets;
    for g in 0..forms {
        changed = with_item(&changed, g, item);
    }
    changed
}

/// The path below a branch on the use of an item.
pub fn below_use(setting: &Setting, cut: &SeriesCut, item: u16, used: bool) -> SeriesCut
    requires few { setting.now.forms ≤ 4 }
    requires item { item < 512 }
    ensures { path_of result ≡ with_use (problem_of setting.now) (path_of cut.now) item used }
{
    if used {
        SeriesCut {
            taken: cut.taken,
            out: cut.out,
            used: cut.used.with(item),
        }
    } else {
        SeriesCut {
            taken: cut.taken,
            out: with_item_in_each(&cut.out, setting.forms, item),
            used: cut.used,
        }
    }
}
