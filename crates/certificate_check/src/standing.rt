//! The items that are free on a path, and the stimuli that are chosen and open.

ghost use Rattle.std.specs.Prelude.{◌≡◌, ℕ};
ghost use Rattle.bank_tables.specs.Items.{has};
ghost use Rattle.certificate_model.specs.Paths.{is_free};
ghost use Rattle.constraint_model.specs.Views.{problem_of};
ghost use Rattle.certificate_check.specs.Cuts.{path_of, IsStanding};

use crate::cut::Cut;
use bank_tables::ItemSet;
use constraint_model::Problem;
use constraint_model::counts::stimuli_used;

/// A path, the items free there, those taken or free, the stimuli chosen, open, and either.
#[derive(Clone, Copy)]
pub struct Standing {
    pub cut: Cut,
    pub free: ItemSet,
    pub may_hold: ItemSet,
    pub chosen: ItemSet,
    pub opened: ItemSet,
    pub may_use: ItemSet,
}

/// The items of the bank that are neither taken nor out.
fn free_items(problem: &Problem, cut: &Cut) -> ItemSet
    ensures { (i : ℕ) → has result i ≡ is_free (problem_of problem.now) (path_of cut.now) i }
{
    let mut free = ItemSet::empty();
    for i in 0..problem.bank.items() {
        if !cut.taken.has(i) && !cut.out.has(i) {
            free = free.with(i);
        }
    }
    free
}

/// The items that are free on a path, those taken or free, the stimuli chosen, open, and either.
pub fn standing_on(problem: &Problem, cut: &Cut) -> Standing
    ensures cut { result.cut ≡ cut.now }
    ensures standing { IsStanding (problem_of problem.now) result }
{
    let free = free_items(problem, cut);
    let chosen = cut
        .branched_on
        .union(stimuli_used(problem.bank, &cut.taken));
    let opened = stimuli_used(problem.bank, &free).minus(chosen);
    Standing {
        cut: *cut,
        free,
        may_hold: cut.taken.union(free),
        chosen,
        opened,
        may_use: chosen.union(opened),
    }
}
