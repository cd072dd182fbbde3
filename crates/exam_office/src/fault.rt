//! Why an office was not opened.

use answer_journal::OpenFault as JournalFault;
use exam_records::RecordFault;
use history_model::Illegal;

/// Why an office was not opened. Of several faults of one file the first is given: those of its
/// frames, then its version, then those of its records, one record after another. A place is that
/// of the record's gate, in bytes from the start of the file.
#[derive(Clone, Copy, Debug, PartialEq, Eq)]
pub enum OpenFault {
    /// The file is no journal. The fault is none of `Disk`, `Version` and `Memory`.
    Journal(JournalFault),
    /// The journal is of the first version and was not moved.
    Version,
    /// The payload at this place is no record.
    BadRecord(u64, RecordFault),
    /// The proof tree of the record at this place doesn't show what its entry claims.
    BadTree(u64),
    /// The record at this place may not follow the entries before it.
    Illegal(u64, Illegal),
    /// A call of the disk failed, and the disk has counted that.
    Disk,
    /// Out of memory.
    Memory,
}
