//! The lines that sum up a history: its numbers, and its exposure by bands; and the line of a
//! migration. Upward it promises that each is the stated text. It knows no history and prints
//! nothing.
#![tactic(auto)]

mod bands;
mod migrated;
mod summary;

pub use bands::bands_text;
pub use migrated::migrated_line;
pub use summary::summary_line;
