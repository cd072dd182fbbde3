//! The path to a node of a series tree.

ghost use Rattle.std.specs.Prelude.{◌≡◌, ℕ, ◌<◌, ◌&&◌, ◌||◌, ◌==◌, [], slice_index_or};
ghost use Rattle.bank_tables.specs.Items.{has};
ghost use Rattle.series_model.specs.SeriesPaths.{root, with_form};
ghost use Rattle.series_check.specs.Cuts.{path_of};

use bank_tables::ItemSet;

/// The items taken into each form on a path, those put out of it, and the used items.
#[derive(Clone, Copy)]
pub struct SeriesCut {
    pub taken: [ItemSet; 4],
    pub out: [ItemSet; 4],
    pub used: ItemSet,
}

/// The path with no branch.
pub fn root_cut() -> SeriesCut
    // Promise: The path with no branch, the path below a branch on an item and a form, and the two
    // paths below a sound branch
    // - of `root_cut`, `below_form`, `paths_below`
    // - by the clauses
    ensures { path_of result ≡ root }
{
    let none = ItemSet::empty();
    SeriesCut {
        taken: [none, none, none, none],
        out: [none, none, none, none],
        used: none,
    }
}

/// The sets, with an item in that of a form.
pub fn with_item(sets: &[ItemSet; 4], form: u8, item: u16) -> [ItemSet; 4]
    requires form { form < 4 }
    requires item { item < 512 }
    ensures { (g i : ℕ) → has (slice_index_or result g []) i
        ≡ ((g == form && i == item) || has (slice_index_or sets.now g []) i) }
{
    let mut changed = *sets;
    changed[form as usize] = sets[form as usize].with(item);
    changed
}

/// The path below a branch on an item and a form.
pub fn below_form(cut: &SeriesCut, form: u8, item: u16, taken: bool) -> SeriesCut
    requires form { form < 4 }
    requires item { item < 512 }
    ensures { path_of result ≡ with_form (path_of cut.now) form item taken }
{
    if taken {
        SeriesCut {
            taken: with_item(&cut.taken, form, item),
            out: cut.out,
            used: cut.used,
        }
    } else {
        SeriesCut {
            taken: cut.taken,
            out: with_item(&cut.out, form, item),
            used: cut.used,
        }
    }
}
