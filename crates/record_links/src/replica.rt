//! Who keeps a copy of a leader's records.
ghost use Rattle.std.specs.Prelude.{◌≡◌, ◌≤◌, List, ℕ, IfOk, IfErr, length};
ghost use Rattle.exam_edge.specs.Faults.{Rose};
ghost use Rattle.record_links.specs.Messages.{IsPayload, offer_of};
ghost use Rattle.record_links.specs.Replicas.{Takes, Fails, StopLeaves, IsSameRule};

use std::alloc::Global;

/// Why an offer was not taken.
#[derive(Clone, Copy, Debug, PartialEq, Eq)]
pub enum TakeFault {
    /// Its number is the count, and its payload is no record, or one that may not follow.
    Refused,
    /// Its number is the count and its record may follow; with it the file would have this length,
    /// above its limit.
    Full(u64),
    /// The disk failed, and has counted that.
    Disk,
    /// Out of memory.
    Memory,
}

/// A copy of a leader's records, numbered from 0, which takes those that are offered.
pub trait Replica {
    ghost use Rattle.std.specs.Prelude.{ℕ, List};
    ghost use Rattle.record_links.specs.Replicas.{Held};

    /// Its records, and the one in doubt, if there is one.
    ghost held: { Self → Held };

    /// The rule: whether a record may follow these.
    ghost may_follow: { Self → List (List ℕ) → List ℕ → Type 0 };

    /// The size of these records in its file, in bytes.
    ghost size: { Self → List (List ℕ) → ℕ };

    /// The greatest size of its file, in bytes.
    ghost limit: { Self → ℕ };

    /// Records that may be found after a stop at a call of the disk between the one state and the
    /// other.
    ghost may_leave: { Self → Self → List (List ℕ) → Type 0 };

    /// How many calls of its disk have failed: a count that never falls, and stays at its last
    /// value.
    ghost faults: { Self → ℕ };

    /// Whether it is as the earlier one in all that no call changes.
    ghost is_later: { Self → Self → Type 0 };

    /// How many records it has, without one in doubt.
    fn count(&self) -> u64
        // Promise: The count is that of the records, without one in doubt
        // - of `Replica::count`, `RecordLog::count`
        ensures { result ≡ length (held self.now).records };

    /// Delivers an offer, and answers how many records it has then, each on its disk for sure. It
    /// mends first where a record is in doubt. An offer with the number of the count is added, or
    /// refused; one with another number leaves the records.
    fn take(&mut self, alloc: Global, number: u64, payload: &[u8]) -> Result<u64, TakeFault>
        requires { IsPayload payload.now }
        // Promise: A count is answered only where an offer was delivered: with the next number its
        // record may follow and was appended, and with another number the records stay. With a
        // record in doubt at the start, they may have it added. The count is that of the records
        // after it
        // - by `taken` (`Takes`, `Delivers`), `count`
        ensures taken { IfOk result (λ _. Takes (may_follow self.old) (held self.old)
            (offer_of number payload.now) (held self.new)) }
        ensures count { IfOk result (λ n. n ≡ length (held self.new).records) }
        // Promise: An offer is refused only where it has the next number and may not follow; there
        // is no room only where it may follow and the size is above the limit; only a failed disk
        // leaves a record in doubt
        // - by `fault` (`Fails`)
        ensures fault { IfErr result (Fails (may_follow self.old) (size self.old) (limit self.old)
            (held self.old) (offer_of number payload.now) (held self.new)) }
        // Promise: A stop while an offer is delivered leaves the records, mended or not, or these
        // with the record taken
        // - by `stops` (`StopLeaves`)
        ensures stops { (left : List (List ℕ)) → may_leave self.old self.new left
            → StopLeaves (may_follow self.old) (held self.old) (offer_of number payload.now) left }
        // Promise: Rule, sizes and limit stay; the count of faults does not fall, and `Disk` comes
        // only where it rose
        // - by `rule` (`IsSameRule`), `grows`, `failed`
        ensures rule { IsSameRule (may_follow self.old) (may_follow self.new) (size self.old)
            (size self.new) (limit self.old) (limit self.new) }
        ensures failed { IfErr result (λ e. e ≡ TakeFault.Disk
            → Rose (faults self.old) (faults self.new)) }
        ensures grows { faults self.old ≤ faults self.new }
        // Promise: What no call changes of a replica or a log is as it was
        // - of `Replica::take`, `RecordLog::record`, `follow_link`, `ship_link`
        ensures later { is_later self.old self.new };

    ghost later_itself: { (s : Self) → is_later s s };

    ghost later_still: { (s t u : Self) → is_later s t → is_later t u → is_later s u };
}
