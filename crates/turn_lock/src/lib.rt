//! A lock that callers take in turns. The value in it has a history, a list that only grows; each
//! caller has a pass, which knows a beginning of the history, and which entries of it are its own.
//! Upward: a move is made on a value whose history begins with all that its pass has seen; of what
//! two passes have seen one begins the other, and no entry is the own of both; the history of the
//! value at the end begins with all that the last pass has seen. It promises nothing on waiting:
//! not that a turn comes, nor when, nor in what order callers that never met come.
#![tactic(auto)]

mod kept;
mod kinds;
mod pass;
mod steps;
mod turn;
mod view;

pub use crate::kept::{Kept, Move};
pub use crate::pass::Pass;
pub use crate::turn::Turn;
pub use crate::view::View;
