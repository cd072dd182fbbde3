//! From where records are shipped.
ghost use Rattle.std.specs.Prelude.{◌≡◌, ◌≢◌, ◌<◌, ◌≤◌, ℕ, Some, Err, IsTrue, IfOk, IfErr, length, slice_get};
ghost use Rattle.exam_edge.specs.Faults.{Rose};
ghost use Rattle.record_links.specs.Messages.{IsPayload};

use std::alloc::Global;

/// Why a record was not read.
#[derive(Clone, Copy, Debug, PartialEq, Eq)]
pub enum LogFault {
    /// The record of this number is not there any more. A log that reports its records never
    /// answers so.
    Lost(u64),
    /// The disk failed, and has counted that.
    Disk,
    /// Out of memory.
    Memory,
}

/// A leader's records, numbered from 0, each of them durable.
pub trait RecordLog {
    ghost use Rattle.std.specs.Prelude.{ℕ, List, Bool};

    /// Whether the object reports its records. Clauses on what is read hold if it does.
    ghost tells: { Self → Bool };

    /// The payloads of its records.
    ghost records: { Self → List (List ℕ) };

    /// How many calls of its disk have failed: a count that never falls, and stays at its last
    /// value.
    ghost faults: { Self → ℕ };

    /// Whether it is as the earlier one in all that no call changes.
    ghost is_later: { Self → Self → Type 0 };

    /// How many records there are.
    fn count(&self) -> u64
        ensures { result ≡ length (records self.now) };

    /// The payload of the record of a number. After a fault the records are as before.
    fn record(&mut self, alloc: Global, number: u64) -> Result<Vec<u8>, LogFault>
        requires { number < length (records self.old) }
        // Promise: The record of a number is given, if the log reports its records; the records
        // stay, and `Disk` comes only where the count of faults rose
        // - by `record`, `fits`, `same`, `failed`, `grows`
        ensures record { IfOk result (λ payload. IsTrue (tells self.old)
            → slice_get (records self.old) number ≡ Some payload.items) }
        ensures fits { IfOk result (λ payload. IsPayload payload.items) }
        ensures same { records self.new ≡ records self.old }
        ensures failed { IfErr result (λ e. e ≡ LogFault.Disk
            → Rose (faults self.old) (faults self.new)) }
        ensures lost { IsTrue (tells self.old) → (n : ℕ) → result ≢ Err (LogFault.Lost n) }
        ensures tells { tells self.new ≡ tells self.old }
        ensures grows { faults self.old ≤ faults self.new }
        ensures later { is_later self.old self.new };

    ghost later_itself: { (s : Self) → is_later s s };

    ghost later_still: { (s t u : Self) → is_later s t → is_later t u → is_later s u };
}
