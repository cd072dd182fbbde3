//! A list that contracts see and no memory holds: at run time it is the number of its elements.
//! Upward it promises that what was pushed is its list; it never gives an element back.
#![tactic(auto)]

mod counted;
mod log;

pub use counted::Counted;
