//! Bounds on the forms of a path of branches, by Lagrangian relaxation and by counting.
//! Upward it promises that `Cut` is the state of a path, that `impossible` is the lowest row that
//! counting rules out, and that `bound` is the relaxed maximum, which no form of the path exceeds.
//! Each of its functions has a contract, and no sum wraps. It settles no node of a proof tree, has
//! no code of the checker that does, and takes no memory.
#![tactic(auto)]

mod counting;
mod cut;
mod links;
mod members;
mod prices;
mod relaxation;
mod threshold;
mod weights;

pub use counting::impossible;
pub use cut::Cut;
pub use relaxation::bound;
