//! What a reader must believe about certificates: plain types, and in specs/ the definitions of
//! paths, reduced weights, relaxed maximum, counting, proof tree, verdict and spent tree. Upward it
//! promises the laws over them; it never computes anything.
#![tactic(auto)]

pub mod laws;
mod node;
mod verdict;

pub use node::Node;
pub use verdict::{Reason, Verdict};
