//! A journal that is shipped while a server writes it. Upward: each record that is given is the one
//! of its number, and the server had settled it, so that it is on the disk for good. What is read,
//! and the links to the follower, are traits.
#![tactic(auto)]

mod door;
mod first;
mod growing_file;
mod journal_tail;
pub mod laws;
mod look;

pub use door::stream_door;
pub use growing_file::{GrowingFile, Waited};
pub use journal_tail::JournalTail;
