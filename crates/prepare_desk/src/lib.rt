//! Forms that are ready before the answer comes: while an examinee reads an item, the form of the
//! next step is assembled for each response, and waits on a desk that all callers of a hall share.
//! The desk has a bounded number of results; one more displaces the one that was put longest ago.
//! Upward: a request is answered as the hall answers it, whatever is on the desk; a result is
//! handed out once; and time that prepares adds nothing to the office. It promises nothing on
//! whether a form is ready.
#![tactic(auto)]

mod caller;
mod desk;
mod key;
mod lone;
mod moves;
mod next;
mod post;

pub use crate::caller::PreparingCaller;
pub use crate::desk::{Desk, Purpose, Ready};
pub use crate::key::Key;
pub use crate::post::{Post, shared};
