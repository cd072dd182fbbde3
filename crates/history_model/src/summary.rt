//! What a history comes down to in numbers.

/// The numbers of a history.
#[derive(Clone, Copy, Debug, PartialEq, Eq)]
pub struct Summary {
    /// Its entries.
    pub entries: u64,
    /// The sessions that were started.
    pub sessions: u32,
    /// Those that are complete or closed.
    pub finished: u32,
    /// The items served from a form that is proved best.
    pub proved: u64,
    /// The items served from a form that isn't.
    pub unproved: u64,
    /// The sessions for which eligibility was set aside.
    pub aside: u64,
    /// The nodes of the trees of the last three, in all.
    pub nodes: u64,
}
