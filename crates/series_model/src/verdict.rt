//! What a series tree shows.

/// The verdict on a tree, with a series or none.
#[derive(Clone, Copy, Debug, PartialEq, Eq)]
pub enum SeriesVerdict {
    /// No series has a value above that of the series, or above the number that was given in its
    /// place.
    Optimal,
    /// There is no series.
    NoSeries,
    /// All nodes are sound; so many leaves are Open.
    Partial(u16),
    /// This node, counted from 0 in preorder, is the first unsound one; 0 too where the sets given
    /// are no series.
    Bad(u16),
}
