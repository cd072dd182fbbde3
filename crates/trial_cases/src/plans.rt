//! The worked plans.

ghost use Rattle.std.specs.Prelude.{◌≡◌, IfOk};
ghost use Rattle.form_model.proofs.BankA.{plan_a};
ghost use Rattle.trial_cases.specs.Plans.{plan_of};

use crate::sets::set_of;
use bank_tables::List;
use form_model::{Draft, Rate, Row, StimulusBound};
use std::alloc::{AllocError, Global};

/// The plan of bank A: three items, one of 0 and 1, and not both 2 and 5.
pub const PLAN_A: &str = "length 3\nprior -10 0 -10\ncount 1 1 0-1\nenemies 2 5\n";

/// The plan of bank S: of stimulus 1 two or three items, or none.
pub const PLAN_S: &str = "length 4\nprior 0 -1\nstimulus 1 2 3\n";

/// The plan of bank E: two items, at most one of 0, 1 and 2.
pub const PLAN_E: &str = "length 2\nprior 0\nbudget 1\nenemies 0 1\nenemies 1 2\nenemies 0 2\n";

/// The plan of bank Q, which no form meets.
pub const PLAN_Q: &str = "length 2\nprior 0\nquantity 0 0 15 0-3\n";

/// The plan of bank L.
pub const PLAN_L: &str =
    "length 20\nprior 0 0 0 0 0 0 0\ncount 2 2 0-9\ncount 2 2 10-19\ncount 2 2 20-29\ncount 2 2 30-39\ncount 2 2 40-49\ncount 2 2 50-59\ncount 2 2 60-69\ncount 2 2 70-79\ncount 1 1 80-89\ncount 1 1 90-99\ncount 1 1 100-109\ncount 1 1 110-119\nenemies 9 19\nenemies 29 39\nenemies 49 59\nenemies 69 79\nquantity 0 0 1300 0-119\nstimuli 0 6\nstimulus 1 2 2\nstimulus 2 2 2\nstimulus 3 2 2\nstimulus 4 2 2\nstimulus 5 2 2\nstimulus 6 2 2\n";

/// A draft of these numbers, with every other number as where no line names it.
#[tactic(auto, unfolding(crate::specs::Plans::plan_of))]
pub fn draft_of(
    alloc: Global,
    length: u32,
    prior: &[i32],
    rows: &[Row],
    bounds: &[StimulusBound],
) -> Result<Draft, AllocError>
    ensures { IfOk result (λ d. d ≡ plan_of length prior.now rows.now bounds.now) }
{
    Ok(Draft {
        length,
        prior: List::of(prior.to_vec(alloc)?),
        rows: List::of(rows.to_vec(alloc)?),
        bounds: List::of(bounds.to_vec(alloc)?),
        rate: Rate { num: 1, den: 1 },
        key: [0; 32],
        bands: List::of(Vec::new(alloc)),
        budget: 2_001,
        base_budget: 4_095,
        sessions: 1_000,
        journal: 67_108_864,
        base: None,
    })
}

/// The draft of plan A.
pub fn draft_a(alloc: Global) -> Result<Draft, AllocError>
    ensures { IfOk result (λ d. d ≡ plan_a) }
{
    let rows = [
        Row::Count {
            set: set_of(&[0, 1]),
            low: 1,
            high: 1,
        },
        Row::Enemies {
            set: set_of(&[2, 5]),
        },
    ];
    draft_of(alloc, 3, &[-10, 0, -10], &rows, &[])
}
