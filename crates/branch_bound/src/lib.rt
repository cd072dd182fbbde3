//! The assembler: it finds a form of a problem and a proof tree that shows what it found (branch
//! and bound with Lagrangian bounds). What the search gives is let in by tests alone; where a test
//! fails, a fallback search answers, which is proved. Upward it promises that the tree's verdict is
//! that of the outcome, by the rules that the separate checker tests; that a form is no worse than
//! those that it was given, and that no exchange of one item betters it; and that with enough nodes
//! it decides. A vector of multipliers that the search may begin with changes nothing of this.
//! `Assembled` keeps it by its type. It never hands over what wasn't tested or proved; that few
//! nodes are enough is measured, and not promised.
#![tactic(auto)]

mod acceptance;
mod assembly;
mod branching;
mod comparison;
mod exchanges;
mod fallback;
mod outcome;
mod pruning;

pub use assembly::{Assembled, assemble, assemble_by_fallback, assemble_from};
pub use outcome::Outcome;
pub use proof_tree::Memory;
