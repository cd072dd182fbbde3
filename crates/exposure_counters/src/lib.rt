//! Running exposure counts: for each item in how many finished sessions it was shown, and in how
//! many it was eligible. Upward it promises that the counters hold the counts of the sessions that
//! were finished, one `finish` for each. It knows no history and no place; only `Counters::new`
//! takes memory.
#![tactic(auto)]

mod counters;

pub use counters::Counters;
pub use history_model::Counts;
pub use std::alloc::AllocError as Memory;
