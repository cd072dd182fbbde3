//! A drill: an examination of its own making, from its texts to its summary.
//!
//! Upward it promises the summary of a history to which the requests of the made script lead from
//! the empty one, or the stated cause why there is none. It opens no file and prints nothing.
#![tactic(auto)]

mod asking;
mod drill;
mod fault;
pub mod laws;
mod lines;
mod reading;

pub use drill::run_drill;
pub use fault::DrillFault;
pub use lines::drill_line;
