//! The separate checker of proof trees: small, and apart from every searcher. Upward it promises
//! that its verdict is the one by definition, that `Optimal` means that no set of items is a better
//! form, that `NoForm` means that there is no form, and that `spent` decides exactly which trees
//! spend their node budget. It takes no memory, never searches, and calls no code of what makes the
//! trees.
#![tactic(auto)]

mod branch;
mod candidate;
mod cap;
mod checker;
mod column;
mod costs;
mod counting;
mod cut;
mod fix;
mod fixing;
mod leaf;
mod node;
mod relaxed;
mod shape;
mod sides;
mod spender;
mod standing;
mod top;
mod unresolved;
mod walk;
mod weights;

pub use certificate_model::{Reason, Verdict};
pub use checker::check;
pub use spender::spent;
