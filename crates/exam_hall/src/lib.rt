//! A hall: an office that many callers share. A request is done in turns on the office under a
//! lock, and forms are assembled between the turns, so that a long search holds up nobody. Upward:
//! whatever other callers do meanwhile, a request's reply is right for one history, which all
//! callers share; the caller's own entries are in it, in order, each once; and a reply that a
//! session still waits for an item is given only where another caller moved that session on. It
//! promises nothing on waiting: not that a turn comes, nor when. A form that was assembled before
//! its answer came may be handed to a request.
#![tactic(auto)]

mod asking;
mod caller;
mod committing;
mod hall;
mod prepared;
mod preparing;
mod probing;

pub use crate::asking::FirstAnswer;
pub use crate::caller::Caller;
pub use crate::committing::Round;
pub use crate::hall::Hall;
pub use crate::prepared::is_same;
pub use crate::preparing::Ahead;
