//! The draw of the items that are eligible for a session in a band of abilities (item-ineligibility
//! control, conditional on ability; van der Linden and Veldkamp, Journal of Educational and
//! Behavioral Statistics, 2004, and 2007). Upward it promises the exact inequality on words and
//! counts, and that the draw is the set of the items that it admits, by ChaCha20's words. It keeps
//! no state and takes no memory.
#![tactic(auto)]

mod admission;
mod drawing;

pub use admission::admits;
pub use drawing::{draw, draw_band};
