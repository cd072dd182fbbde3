//! What the trees of a search may have: what the checker accepts that is to judge them.

/// The kinds of vectors and branches beside those of each form alone.
#[derive(Clone, Copy, Debug, PartialEq, Eq)]
pub struct Kinds {
    /// Whether vectors are judged by the rule of the pool; else each form alone, with multipliers
    /// of common use.
    pub pool: bool,
    /// Whether a vector of the pool may have a threshold, so that the items of each stimulus are
    /// counted with it.
    pub thresholds: bool,
    /// Whether a branch may be on the use of an item.
    pub uses: bool,
    /// Whether a branch may count forms of one state as one.
    pub twins: bool,
}

impl Kinds {
    /// All kinds.
    // Promise: What the trees of a search may have
    // - of `Kinds::all`, `Kinds::judged`
    // - by none
    pub fn all() -> Kinds {
        Kinds {
            pool: true,
            thresholds: true,
            uses: true,
            twins: true,
        }
    }

    /// All but thresholds, which `series_check` does not judge.
    pub fn judged() -> Kinds {
        Kinds {
            pool: true,
            thresholds: false,
            uses: true,
            twins: true,
        }
    }
}
