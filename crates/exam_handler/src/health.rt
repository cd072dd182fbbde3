//! How an examination is.

/// How an examination is, in numbers for whoever operates it. Lengths are in bytes.
#[derive(Clone, Copy, Debug, PartialEq, Eq)]
pub struct Health {
    /// The entries of its history.
    pub entries: u64,
    /// The sessions that were started.
    pub sessions: u32,
    /// Those of them that are neither complete nor closed.
    pub open: u32,
    /// The sessions that may still start, by the limit of the plan.
    pub sessions_left: u32,
    /// The length of its journal.
    pub length: u64,
    /// How much the journal may still grow, by the limit of the plan.
    pub room: u64,
}
