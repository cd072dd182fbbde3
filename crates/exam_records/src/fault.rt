//! Why bytes are no record.

ghost use Rattle.std.specs.Prelude.{◌≡◌};
ghost use Rattle.exam_records.specs.declared.fault.RecordFault.TheVariants.{Memory};

use proof_tree::TreeFault;
use std::alloc::{AllocError, AllocFailed};

/// The first fault in the order of reading. A place counts the payload's bytes from 0, and is that
/// of the byte where the field begins.
#[derive(Clone, Copy, Debug, PartialEq, Eq)]
pub enum RecordFault {
    /// The payload ends within a field before the tree, or where such a field should begin.
    Short,
    /// The first byte is of no kind; the place is 0.
    Kind(u64),
    /// The cause or the mark that begins here is above 1, or the number of bands isn't 1 to 8, or
    /// the band is above 7, or the list of items that the examinee must not get is empty, or the
    /// number of nodes isn't that of the tree.
    Field(u64),
    /// The bytes of the tree are at fault; the place in it counts from the tree's first byte.
    Tree(TreeFault),
    /// The record ends here, and a byte is left.
    Extra(u64),
    /// Out of memory.
    Memory,
}

impl From<AllocError> for RecordFault {
    ghost from_gives = { λ _ e. e ≡ Memory };

    fn from(_e: AllocError) -> RecordFault {
        RecordFault::Memory
    }
}

impl<T: Drop> From<AllocFailed<T>> for RecordFault {
    ghost from_gives = { λ _ e. e ≡ Memory };

    fn from(_e: AllocFailed<T>) -> RecordFault {
        RecordFault::Memory
    }
}
