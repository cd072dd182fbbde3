//! What a reader must believe about serving: a seat as a plain type, and in specs/ the definitions
//! of the item that is served from a form, and of the problem of a seat. Upward it promises the
//! laws over them; it never computes anything.
#![tactic(auto)]

pub mod laws;
mod seat;

pub use seat::Seat;
