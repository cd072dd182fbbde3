//! Why a drill has no summary.

ghost use Rattle.std.specs.Prelude.{◌≡◌};
ghost use Rattle.exam_drill.specs.declared.fault.DrillFault.TheVariants.{Memory};

use std::alloc::AllocError;

/// Why a drill has no summary.
#[derive(Debug, Drop)]
pub enum DrillFault {
    /// With its next record the journal would have `size` bytes, more than its limit of `most`.
    JournalFull { size: u64, most: u64 },
    /// Out of memory.
    Memory,
}

impl From<AllocError> for DrillFault {
    ghost from_gives = { λ _ e. e ≡ Memory };

    fn from(_e: AllocError) -> DrillFault {
        DrillFault::Memory
    }
}
