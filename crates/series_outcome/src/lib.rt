//! What a search for form series shows: its forms and its series tree are let in by tests alone,
//! and where a test fails, a fallback search answers, which is proved. Upward it promises that the
//! tree's verdict is that of the outcome, by the rules of the separate checker, and that a tree
//! that leaves it open whether a series is best spends the node budget. It never hands over what
//! was not tested or proved; that few nodes are enough is not promised.
#![tactic(auto)]

mod acceptance;
mod counted;
mod fallback;
mod known;
mod outcome;
mod shape;
mod spending;

pub use acceptance::outcome_shown;
pub use fallback::search_fallback;
pub use known::{Known, known_series};
pub use outcome::{Series, SeriesOutcome};
pub use series_tree::Memory;
