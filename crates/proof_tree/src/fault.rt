//! Why bytes are no proof tree.

ghost use Rattle.std.specs.Prelude.{◌≡◌};
ghost use Rattle.proof_tree.specs.declared.fault.TreeFault.TheVariants.{Memory};

use std::alloc::{AllocError, AllocFailed};

/// The first fault from left to right, with the place of the byte where the field or node begins.
#[derive(Clone, Copy, Debug, PartialEq, Eq)]
pub enum TreeFault {
    /// The bytes end within a field, or where one should begin.
    Short,
    /// The node that begins here is of no kind, or its number is out of its range.
    BadKind(u64),
    /// This number of a vector breaks a rule: more than 384 pairs, or more than 12,288 with those
    /// of the vectors before, a side that isn't above the one before or isn't below 386, or a
    /// multiplier that isn't from 1 to 16,777,216.
    BadVector(u64),
    /// The bytes end here, between two nodes, and the tree isn't whole.
    Unfinished(u64),
    /// A 4,096th node would begin here.
    TooLong(u64),
    /// Out of memory.
    Memory,
}

impl From<AllocError> for TreeFault {
    ghost from_gives = { λ _ e. e ≡ Memory };

    fn from(_e: AllocError) -> TreeFault {
        TreeFault::Memory
    }
}

impl<T: Drop> From<AllocFailed<T>> for TreeFault {
    ghost from_gives = { λ _ e. e ≡ Memory };

    fn from(_e: AllocFailed<T>) -> TreeFault {
        TreeFault::Memory
    }
}
