//! The follower as a replica: what a link delivers to.

ghost use Rattle.std.specs.Prelude.{◌≡◌};
ghost use Rattle.exam_follower.specs.Delivering.{taken_as};

use crate::fault::DeliverFault;
use crate::follower::Follower;
use exam_edge::Disk;
use record_links::{Replica, TakeFault};
use std::alloc::Global;

/// The fault of a replica: a payload that is no record is refused as a record that may not follow
/// is.
fn take_fault(fault: DeliverFault) -> TakeFault
    ensures { result ≡ taken_as fault }
{
    match fault {
        DeliverFault::BadRecord(_) | DeliverFault::Refused(_) => TakeFault::Refused,
        DeliverFault::Full(size) => TakeFault::Full(size),
        DeliverFault::Disk => TakeFault::Disk,
        DeliverFault::Memory => TakeFault::Memory,
    }
}

impl<'a, D: Disk> Replica for Follower<'a, D> {
    ghost use Rattle.answer_journal.specs.Journal.{faults_of};
    ghost use Rattle.exam_follower.specs.Delivering.{MayBeLeft};
    ghost use Rattle.exam_follower.specs.Followers.{held_of, may_follow, size_with, limit_of, IsSameFollower};
    ghost use Rattle.exam_follower.specs.Later.{same_itself, same_still};

    ghost held = { held_of };

    ghost may_follow = { may_follow };

    ghost size = { size_with };

    ghost limit = { limit_of };

    ghost may_leave = { MayBeLeft };

    ghost faults = { λ f. faults_of f.office.journal };

    ghost is_later = { IsSameFollower };

    ghost later_itself = { same_itself };

    ghost later_still = { same_still };

    fn count(&self) -> u64 {
        self.office.records()
    }

    fn take(&mut self, alloc: Global, number: u64, payload: &[u8]) -> Result<u64, TakeFault> {
        match self.deliver(alloc, number, payload) {
            Ok(count) => Ok(count),
            Err(fault) => Err(take_fault(fault)),
        }
    }
}
