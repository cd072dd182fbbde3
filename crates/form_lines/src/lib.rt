//! The lines of forms, and what the command `series` answers: a series of forms with the tree that
//! shows it, or why there is none. Upward it promises that each text is the stated one, that the
//! series it tells has the value and the mark that it tells, and which end comes where. It reads no
//! file and prints nothing.
#![tactic(auto)]

mod answer;
mod items;
mod series;

pub use answer::{SeriesEnd, series_lines};
pub use items::{mark_text, push_items};
pub use series::{no_series_text, none_found_text};
