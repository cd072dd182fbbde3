//! What the search of the assembler is proved to keep: each path that waits for its subtree has the
//! state of some path of branches, and the form that it hands over is a form.
//!
//! The functions are small and have clauses; the search itself, which calls them, promises only
//! safety.
#![tactic(auto)]

mod paths;
mod tested;

pub use paths::{Sides, Waiting, below, next_path, push_below, wait};
pub use proof_tree::Memory;
pub use tested::tested_form;
