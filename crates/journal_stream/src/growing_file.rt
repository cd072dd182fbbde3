//! The file of a journal that a server writes meanwhile.
ghost use Rattle.std.specs.Prelude.{◌≡◌, ◌<◌, ◌≤◌, ◌+◌, List, ℕ, IsTrue, IfOk, OnErr, length, take, drop};
ghost use Rattle.exam_edge.specs.Faults.{Rose};
ghost use Rattle.record_links.specs.Streaming.{IsGrown};
ghost use Rattle.journal_stream.specs.Served.{IsServed};

use exam_edge::Failed;

/// What a wait for more records gave.
#[derive(Clone, Copy, Debug, PartialEq, Eq, Drop)]
pub struct Waited {
    /// How many records the server has settled, as far as it was asked: at least so many.
    pub told: u64,
    /// Whether the follower is to hear something meanwhile: a link on which nothing moves for a
    /// minute is given up.
    pub is_long: bool,
}

/// The file of a journal of the second version, or of one that was moved to it, which its server
/// writes meanwhile. It is only read, and no read waits for the server. A read gives the bytes of
/// one moment.
pub trait GrowingFile {
    ghost use Rattle.std.specs.Prelude.{ℕ, List, Bool, Option};

    /// Whether the object reports its file. Clauses on the file hold if it does.
    ghost tells: { Self → Bool };

    /// The payloads of the first version, if the journal was moved from it. They never change.
    ghost moved: { Self → Option (List (List ℕ)) };

    /// The payloads of the records that the server has settled: each is on the disk for good.
    ghost settled: { Self → List (List ℕ) };

    /// The bytes of the file, as a read gives them.
    ghost content: { Self → List ℕ };

    /// How many calls have failed: a count that never falls, and stays at its last value.
    ghost faults: { Self → ℕ };

    /// Reads bytes from a place on to the front of the buffer, and answers how many: fewer than
    /// there is room for only at the end of the file.
    fn read(&mut self, at: u64, buffer: &mut [u8]) -> Result<usize, Failed>
        // Promise: A read gives bytes of the file at one moment, fewer than there is room for only
        // at its end, and the settled records only become more. `Failed` comes only where the count
        // of faults rose
        // - by `count`, `bytes`, `all`, `grown`, `moved`, `tells`, `failed`, `grows`
        ensures count { IfOk result (λ k. k ≤ length buffer.old) }
        ensures bytes { IfOk result (λ k. IsTrue (tells self.old)
            → take k buffer.new ≡ take k (drop at (content self.new))) }
        ensures all { IfOk result (λ k. IsTrue (tells self.old) → k < length buffer.old
            → length (content self.new) ≤ at + k) }
        ensures grown { IsTrue (tells self.old) → IsGrown (settled self.old) (settled self.new) }
        ensures moved { moved self.new ≡ moved self.old }
        ensures tells { tells self.new ≡ tells self.old }
        ensures failed { OnErr result (Rose (faults self.old) (faults self.new)) }
        ensures grows { faults self.old ≤ faults self.new };

    /// Counts that the bytes at a place are none of such a journal.
    fn refuse(&mut self, at: u64) -> Failed
        ensures grown { IsTrue (tells self.old) → IsGrown (settled self.old) (settled self.new) }
        ensures moved { moved self.new ≡ moved self.old }
        ensures tells { tells self.new ≡ tells self.old }
        // Promise: Bytes that are no journal's are counted as a fault
        // - by `failed`, `grown`, `moved`, `tells`, `grows`
        ensures failed { Rose (faults self.old) (faults self.new) }
        ensures grows { faults self.old ≤ faults self.new };

    /// Notes that the follower has so many records.
    // Promise: A note and a wait leave the settled records, or more; a wait gives a count that is
    // no greater than theirs
    // - of `GrowingFile::note`, `GrowingFile::wait`
    // - by `told`, `grown`, `moved`, `tells`, `grows`
    fn note(&mut self, count: u64)
        ensures grown { IsTrue (tells self.old) → IsGrown (settled self.old) (settled self.new) }
        ensures moved { moved self.new ≡ moved self.old }
        ensures tells { tells self.new ≡ tells self.old }
        ensures grows { faults self.old ≤ faults self.new };

    /// Waits a while for more records. Whether one is there that is not known to be settled: then
    /// the server may be asked.
    fn wait(&mut self, is_unsettled: bool) -> Waited
        ensures told { IsTrue (tells self.old) → result.told ≤ length (settled self.new) }
        ensures grown { IsTrue (tells self.old) → IsGrown (settled self.old) (settled self.new) }
        ensures moved { moved self.new ≡ moved self.old }
        ensures tells { tells self.new ≡ tells self.old }
        ensures grows { faults self.old ≤ faults self.new };

    /// What a read gives is the file of its settled records, as a server writes it.
    ghost served: { (s : Self) → IsTrue (tells s)
        → IsServed (moved s) (settled s) (content s) };
}
