//! From where records are shipped while they are written.
ghost use Rattle.std.specs.Prelude.{◌≡◌, ◌<◌, ◌≤◌, IsTrue, IfOk, IfErr};
ghost use Rattle.exam_edge.specs.Faults.{Rose};
ghost use Rattle.record_links.specs.Streaming.{IsGrown, Gives, IsAnswer};

use std::alloc::Global;

/// Why nothing is known of a record.
#[derive(Clone, Copy, Debug, PartialEq, Eq)]
pub enum AskFault {
    /// The file failed, and has counted that.
    Disk,
    /// Out of memory.
    Memory,
}

/// What a log that grows has of a number.
#[derive(Drop)]
pub enum Asked {
    /// The payload of the record of this number.
    Record(Vec<u8>),
    /// No record of this number is known to be durable yet.
    NotYet,
    /// There are fewer records than the number.
    Above,
}

/// A leader's records, numbered from 0, each of them durable, to which others are added meanwhile.
pub trait GrowingLog {
    ghost use Rattle.std.specs.Prelude.{ℕ, List, Bool};

    /// Whether the object reports its records. Clauses on them hold if it does.
    ghost tells: { Self → Bool };

    /// The payloads of its records.
    ghost records: { Self → List (List ℕ) };

    /// How many calls of its file have failed: a count that never falls, and stays at its last
    /// value.
    ghost faults: { Self → ℕ };

    /// What there is of the record of a number.
    fn ask(&mut self, alloc: Global, number: u64) -> Result<Asked, AskFault>
        // Promise: What a growing log has of a number is its record, or nothing yet; or there are
        // fewer records than the number
        // - by `gives` (`Gives`), `fits`, `grown`, `failed`, `grows`
        ensures gives { IfOk result (λ asked. IsTrue (tells self.old)
            → Gives (records self.new) number asked) }
        ensures fits { IfOk result IsAnswer }
        ensures grown { IsTrue (tells self.old) → IsGrown (records self.old) (records self.new) }
        ensures tells { tells self.new ≡ tells self.old }
        ensures failed { IfErr result (λ e. e ≡ AskFault.Disk
            → Rose (faults self.old) (faults self.new)) }
        ensures grows { faults self.old ≤ faults self.new };

    /// Waits a while for more records. Whether the other side of a link is to hear something
    /// meanwhile: a link on which nothing moves for a minute is given up.
    fn wait(&mut self) -> bool
        // Promise: A wait leaves the records, or more
        // - by `grown`, `grows`
        ensures grown { IsTrue (tells self.old) → IsGrown (records self.old) (records self.new) }
        ensures tells { tells self.new ≡ tells self.old }
        ensures grows { faults self.old ≤ faults self.new };
}
