//! The assembler of form series: it finds forms of a plan without common items, and a series tree
//! that shows what it found. Upward it promises that the tree's verdict is that of the outcome, by
//! the rules of the separate checker, and that a series that is not proved best has a tree that
//! spends the node budget. Beside it there may be a bound of all series, which the checker accepts
//! too. The forms are in ascending order of their lowest item. It never hands over what was not
//! tested or proved; that few nodes are enough is measured, and not promised.
#![tactic(auto)]

mod assembly;
mod bound;
mod order;

pub use assembly::{AssembledSeries, assemble_series};
pub use bound::SeriesBound;
pub use series_outcome::SeriesOutcome;
pub use series_tree::Memory;
