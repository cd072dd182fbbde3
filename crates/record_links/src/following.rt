//! The follower's side of a link.
ghost use Rattle.std.specs.Prelude.{◌≡◌, ◌≤◌, ◌++◌, List, ℕ, IsTrue};
ghost use Rattle.exam_edge.specs.Allowing.{AllowsAll};
ghost use Rattle.exam_edge.specs.Faults.{Rose};
ghost use Rattle.exam_edge.specs.Lent.{IsLent};
ghost use Rattle.record_links.specs.Messages.{bytes_of, offer_of, IsPayload};
ghost use Rattle.record_links.specs.Replicas.{IsSameRule};
ghost use Rattle.record_links.specs.Following.{Moves, Answers, Steps, IsMoved, Turns, EndsSo, IsFollowed};

use crate::fault::MessageFault;
use crate::followed::Turn;
use crate::kept::Kept;
use crate::offer::{ShipperMessage, next_offer};
use crate::writing::write_have;
use crate::{Followed, Replica, TakeFault};
use exam_edge::{Failed, Link};
use std::alloc::Global;
use std::sync::Wait;

// Takes an offer, and writes a have of the records after it.
fn take_offer<F: Replica, K: Link>(
    alloc: Global,
    replica: &mut F,
    link: &mut K,
    number: u64,
    payload: &[u8],
) -> Turn
    requires payload { IsPayload payload.now }
    requires allowed { AllowsAll K.tells K.allows }
    ensures moves { Moves (F.may_follow replica.old) (F.size replica.old) (F.limit replica.old)
        (F.held replica.old) (offer_of number payload.now) (F.held replica.new) result }
    ensures answers { IsTrue (K.tells link.old) → (text : List ℕ)
        × (K.written link.new ≡ K.written link.old ++ text)
        × Answers (F.may_follow replica.old) (F.size replica.old) (F.limit replica.old)
        (F.held replica.new) text result }
    ensures left { IsTrue (K.tells link.old) → K.left link.new ≡ K.left link.old }
    ensures rule { IsSameRule (F.may_follow replica.old) (F.may_follow replica.new)
        (F.size replica.old) (F.size replica.new) (F.limit replica.old) (F.limit replica.new) }
    ensures later { F.is_later replica.old replica.new }
    ensures failed { result ≡ Turn.Over Followed.Link
        → Rose (K.faults link.old) (K.faults link.new) }
    ensures disk { result ≡ Turn.Over Followed.Disk
        → Rose (F.faults replica.old) (F.faults replica.new) }
    ensures grows { F.faults replica.old ≤ F.faults replica.new }
    ensures frame { IsLent K.tells K.identity K.faults link.old link.new }
{
    match replica.take(alloc, number, payload) {
        Ok(count) => match write_have(link, count) {
            Ok(()) => Turn::GoesOn,
            Err(Failed) => Turn::Over(Followed::Link),
        },
        Err(TakeFault::Refused) => Turn::Over(Followed::Offer(number)),
        Err(TakeFault::Full(size)) => Turn::Over(Followed::Full(size)),
        Err(TakeFault::Disk) => Turn::Over(Followed::Disk),
        Err(TakeFault::Memory) => Turn::Over(Followed::Memory),
    }
}

// Reads one message and does what it asks.
fn take_message<F: Replica, K: Link>(
    alloc: Global,
    replica: &mut F,
    link: &mut K,
    kept: &mut Kept,
) -> Turn
    requires { AllowsAll K.tells K.allows }
    ensures steps { Steps (F.may_follow replica.old) (F.size replica.old) (F.limit replica.old)
        (F.held replica.old) (F.held replica.new) result }
    ensures turns { IsTrue (K.tells link.old) → (text : List ℕ)
        × (K.written link.new ≡ K.written link.old ++ text)
        × Turns (F.may_follow replica.old) (F.size replica.old) (F.limit replica.old)
        (F.held replica.old) (bytes_of kept.old ++ K.left link.old) text
        (bytes_of kept.new ++ K.left link.new) (F.held replica.new) result }
    ensures rule { IsSameRule (F.may_follow replica.old) (F.may_follow replica.new)
        (F.size replica.old) (F.size replica.new) (F.limit replica.old) (F.limit replica.new) }
    ensures later { F.is_later replica.old replica.new }
    ensures failed { result ≡ Turn.Over Followed.Link
        → Rose (K.faults link.old) (K.faults link.new) }
    ensures disk { result ≡ Turn.Over Followed.Disk
        → Rose (F.faults replica.old) (F.faults replica.new) }
    ensures grows { F.faults replica.old ≤ F.faults replica.new }
    ensures frame { IsLent K.tells K.identity K.faults link.old link.new }
{
    match next_offer(alloc, link, kept) {
        Ok(ShipperMessage::Offer { number, payload }) => {
            take_offer(alloc, replica, link, number, &payload)
        }
        Ok(ShipperMessage::End) => Turn::Over(Followed::Done(replica.count())),
        Err(MessageFault::Peer(fault)) => Turn::Over(Followed::Peer(fault)),
        Err(MessageFault::Link) => Turn::Over(Followed::Link),
        Err(MessageFault::Memory) => Turn::Over(Followed::Memory),
    }
}

// Serves what was kept of a link and what it still gives.
fn follow_all<F: Replica, K: Link, R: Wait>(
    rt: &R,
    alloc: Global,
    replica: &mut F,
    link: &mut K,
    kept: &mut Kept,
) -> Followed
    requires { AllowsAll K.tells K.allows }
    ensures moved { IsMoved (F.may_follow replica.old) (F.size replica.old) (F.limit replica.old)
        (F.held replica.old) (F.held replica.new) result }
    ensures followed { IsTrue (K.tells link.old) → (text : List ℕ)
        × (K.written link.new ≡ K.written link.old ++ text)
        × EndsSo (F.may_follow replica.old) (F.size replica.old) (F.limit replica.old)
        (F.held replica.old) (bytes_of kept.old ++ K.left link.old) text (F.held replica.new)
        result }
    ensures rule { IsSameRule (F.may_follow replica.old) (F.may_follow replica.new)
        (F.size replica.old) (F.size replica.new) (F.limit replica.old) (F.limit replica.new) }
    ensures later { F.is_later replica.old replica.new }
    ensures failed { result ≡ Followed.Link → Rose (K.faults link.old) (K.faults link.new) }
    ensures disk { result ≡ Followed.Disk → Rose (F.faults replica.old) (F.faults replica.new) }
    ensures grows { F.faults replica.old ≤ F.faults replica.new }
    ensures frame { IsLent K.tells K.identity K.faults link.old link.new }
{
    'messages: for _ in rt.forever() {
        match take_message(alloc, replica, link, kept) {
            Turn::GoesOn => {}
            Turn::Over(followed) => return followed,
        }
    }
    unreachable!()
}

/// Follows the records that come over one link: writes a have of the records, then takes each offer
/// and writes a have of the records after it, until the end. The first fault ends it; what was
/// taken stays.
pub fn follow_link<F: Replica, K: Link, R: Wait>(
    rt: &R,
    alloc: Global,
    replica: &mut F,
    link: &mut K,
) -> Followed
    // Whether the link tells its bytes or not.
    requires { AllowsAll K.tells K.allows }
    // Promise: Also where the link does not report its bytes, the follower went through deliveries,
    // one after another, and `Done` has the count of its records
    // - by `moved` (`IsMoved`)
    ensures moved { IsMoved (F.may_follow replica.old) (F.size replica.old) (F.limit replica.old)
        (F.held replica.old) (F.held replica.new) result }
    // Promise: A link leaves the follower where the offers read leave it, in their order. It wrote
    // a have of the records at the start, and one after each of them; where the link failed, a
    // beginning of these. `Done` comes at the end, and `Peer` where the bytes are no message of a
    // shipper
    // - by `followed` (`IsFollowed`)
    ensures followed { IsTrue (K.tells link.old) → (text : List ℕ)
        × (K.written link.new ≡ K.written link.old ++ text)
        × IsFollowed (F.may_follow replica.old) (F.size replica.old) (F.limit replica.old)
        (F.held replica.old) (K.left link.old) text (F.held replica.new) result }
    ensures rule { IsSameRule (F.may_follow replica.old) (F.may_follow replica.new)
        (F.size replica.old) (F.size replica.new) (F.limit replica.old) (F.limit replica.new) }
    ensures later { F.is_later replica.old replica.new }
    // Promise: `Link` and `Disk` come only where the count of faults of the link, or of the replica
    // or the log, rose
    // - of `follow_link`, `ship_link`, `stream_link`
    // - by `failed`, `disk`
    ensures failed { result ≡ Followed.Link → Rose (K.faults link.old) (K.faults link.new) }
    ensures disk { result ≡ Followed.Disk → Rose (F.faults replica.old) (F.faults replica.new) }
    ensures grows { F.faults replica.old ≤ F.faults replica.new }
    ensures frame { IsLent K.tells K.identity K.faults link.old link.new }
{
    let mut kept = Kept::new(alloc);
    match write_have(link, replica.count()) {
        Ok(()) => follow_all(rt, alloc, replica, link, &mut kept),
        Err(Failed) => Followed::Link,
    }
}
