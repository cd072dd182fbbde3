//! Why an offer was not delivered.

use exam_records::RecordFault;
use history_model::Illegal;

/// Why an offer was not delivered. Of several causes the first is given.
#[derive(Clone, Copy, Debug, PartialEq, Eq)]
pub enum DeliverFault {
    /// Its number is the count, and its payload is no record.
    BadRecord(RecordFault),
    /// Its number is the count, and its record may not follow the entries of the history.
    Refused(Illegal),
    /// Its number is the count and its record may follow; with it the journal would have this
    /// length in bytes, above its limit.
    Full(u64),
    /// A call of the disk failed, and the disk has counted that.
    Disk,
    /// Out of memory.
    Memory,
}
