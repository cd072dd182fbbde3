//! The path to a node of a proof tree.

ghost use Rattle.std.specs.Prelude.{◌≡◌, ℕ, ◌<◌, ◌&&◌, ◌==◌};
ghost use Rattle.bank_tables.specs.Items.{has};
ghost use Rattle.bank_tables.specs.Tables.{stimulus};
ghost use Rattle.bank_tables.specs.Validity.{HoldsItems};
ghost use Rattle.certificate_model.specs.Paths.{root, with_item};
ghost use Rattle.constraint_model.specs.Views.{problem_of};
ghost use Rattle.certificate_check.specs.Cuts.{path_of};

use bank_tables::{Bank, ItemSet};
use constraint_model::Problem;

/// The items taken and the items put out on a path, and the stimuli that a left branch chose.
#[derive(Clone, Copy)]
pub struct Cut {
    pub taken: ItemSet,
    pub out: ItemSet,
    pub branched_on: ItemSet,
}

/// The path with no branch.
pub fn root_cut(problem: &Problem) -> Cut
    ensures { path_of result ≡ root (problem_of problem.now) }
{
    Cut {
        taken: problem.given,
        out: problem.barred,
        branched_on: ItemSet::empty(),
    }
}

/// The path below a branch on an item.
pub fn below_item(cut: &Cut, item: u16, taken: bool) -> Cut
    requires { item < 512 }
    ensures { path_of result ≡ with_item (path_of cut.now) item taken }
{
    if taken {
        Cut {
            taken: cut.taken.with(item),
            out: cut.out,
            branched_on: cut.branched_on,
        }
    } else {
        Cut {
            taken: cut.taken,
            out: cut.out.with(item),
            branched_on: cut.branched_on,
        }
    }
}

/// The items of a set that have the stimulus.
pub fn items_with(bank: &Bank, items: &ItemSet, which: u8) -> ItemSet
    requires { HoldsItems bank.now (has items.now) }
    ensures { (i : ℕ) → has result i ≡ (has items.now i && stimulus bank.now i == which) }
{
    let mut found = ItemSet::empty();
    for i in 0..bank.items() {
        if items.has(i) && bank.stimulus(i) == which {
            found = found.with(i);
        }
    }
    found
}
