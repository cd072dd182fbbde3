//! The maximal runs of a set of items.

ghost use Rattle.std.specs.Prelude.{◌≡◌, ◌≤◌, IfOk};
ghost use Rattle.bank_tables.specs.Items.{has};
ghost use Rattle.spec_reader.specs.Sets.{runs_below, runs_of};

use bank_tables::ItemSet;
use exam_text::Run;
use std::alloc::{AllocError, Global};

fn runs_below(alloc: Global, set: &ItemSet, end: u16) -> Result<Vec<Run>, AllocError>
    requires { end ≤ 512 }
    ensures { IfOk result (λ v. v.items ≡ runs_below end (has set.now)) }
{
    let mut runs = Vec::new(alloc);
    let mut low = 0;
    for item in 0..end {
        if !set.has(item) {
            low = item + 1;
        } else if !set.has(item + 1) {
            runs.push(Run { low, high: item })?;
        }
    }
    Ok(runs)
}

/// The maximal runs of a set of items, ascending.
#[tactic(auto, unfolding(crate::specs::Sets::runs_of))]
pub fn runs_of(alloc: Global, set: &ItemSet) -> Result<Vec<Run>, AllocError>
    ensures { IfOk result (λ v. v.items ≡ runs_of (has set.now)) }
{
    runs_below(alloc, set, 512)
}
