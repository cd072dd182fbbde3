//! The search of the assembler: it looks for a form of a problem and for a proof tree that shows it
//! best (branch and bound with Lagrangian bounds). Upward it promises no more than that it is safe,
//! that it ends, and that the form it hands over is a form: the tree is believed by nobody, and is
//! tested by the separate checker. Its sums are written to wrap, so that they need no proof; where
//! they did, the tree would fail its test. It never decides anything.
//!
//! Words: a *table* is a problem as flat arrays; a *tally* what a set of items adds to each row; a
//! *pool* the vectors of a tree; a vector is *priced* once its reduced weights are computed; a
//! *hand* is the vector that the steps at a path begin with; *shares* are how often steps chose
//! each item and each stimulus; a *cap* is what a free item of an open stimulus counts at most in a
//! vector's bound.
#![tactic(auto)]

mod branching;
mod dive;
mod exchange;
mod incumbent;
mod leaves;
mod pool;
mod priced;
mod probing;
mod repair;
mod root;
mod search_call;
mod steps;
mod sweep;
mod table;
mod tally;
mod vertex_branching;
mod vertex_sweep;
mod vertices;
mod weights;

pub use proof_tree::Memory;
pub use search_call::{Searched, search};
