//! The result of an assembly.

use bank_tables::{ItemSet, List};
use series_tree::SeriesTree;

/// What an assembly found.
#[derive(Debug, Drop)]
pub enum SeriesOutcome {
    /// A series; proved, no series has a greater value, else the node budget was spent.
    Found { forms: List<ItemSet>, proved: bool },
    /// There is no series.
    NoSeries,
    /// The node budget was spent, and no series was found.
    NoneFound,
}

/// An outcome, with the tree that shows it.
#[derive(Debug, Drop)]
pub struct Series {
    pub outcome: SeriesOutcome,
    pub tree: SeriesTree,
}
