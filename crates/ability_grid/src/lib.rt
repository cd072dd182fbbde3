//! The ability estimate: running sums of the log-posterior over the ability grid, and their mode.
//! Upward it promises that the mode is the posterior mode of the prior and the answers that were
//! added, and that no sum wraps. Only `KeptSums::of_prior` takes memory.
#![tactic(auto)]

mod kept;
mod sums;

pub use kept::KeptSums;
pub use std::alloc::AllocError as Memory;
pub use sums::Sums;
