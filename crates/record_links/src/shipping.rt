//! The leader's side of a link.
ghost use Rattle.std.specs.Prelude.{◌≡◌, ◌≢◌, ◌<◌, ◌≤◌, ◌++◌, List, ℕ, IsTrue, length};
ghost use Rattle.exam_edge.specs.Allowing.{AllowsAll};
ghost use Rattle.exam_edge.specs.Faults.{Rose};
ghost use Rattle.exam_edge.specs.Lent.{IsLent};
ghost use Rattle.record_links.specs.Messages.{bytes_of};
ghost use Rattle.record_links.specs.Shipping.{Sends, Turns, IsShipped, IsShipperEnd, IsTurnEnd};

use crate::fault::MessageFault;
use crate::followed::Turn;
use crate::have::next_have;
use crate::kept::Kept;
use crate::writing::{offer_bytes, write_all};
use crate::{Followed, LogFault, PeerFault, RecordLog};
use exam_edge::{Failed, Link};
use std::alloc::Global;

// Writes the offer of a record.
fn send_offer<S: RecordLog, K: Link>(alloc: Global, log: &mut S, link: &mut K, number: u64) -> Turn
    requires number { number < length (S.records log.old) }
    requires allowed { AllowsAll K.tells K.allows }
    ensures sends { IsTrue (S.tells log.old) → IsTrue (K.tells link.old) → (text : List ℕ)
        × (K.written link.new ≡ K.written link.old ++ text)
        × Sends (S.records log.old) number text result }
    ensures ends { IsTurnEnd result }
    ensures goes_on { (count : ℕ) → result ≢ Turn.Over (Followed.Done count) }
    ensures left { IsTrue (K.tells link.old) → K.left link.new ≡ K.left link.old }
    ensures same { S.records log.new ≡ S.records log.old }
    ensures lost { IsTrue (S.tells log.old) → (n : ℕ) → result ≢ Turn.Over (Followed.Lost n) }
    ensures tells { S.tells log.new ≡ S.tells log.old }
    ensures later { S.is_later log.old log.new }
    ensures failed { result ≡ Turn.Over Followed.Link
        → Rose (K.faults link.old) (K.faults link.new) }
    ensures disk { result ≡ Turn.Over Followed.Disk
        → Rose (S.faults log.old) (S.faults log.new) }
    ensures grows { S.faults log.old ≤ S.faults log.new }
    ensures frame { IsLent K.tells K.identity K.faults link.old link.new }
{
    let payload = match log.record(alloc, number) {
        Ok(payload) => payload,
        Err(LogFault::Lost(n)) => return Turn::Over(Followed::Lost(n)),
        Err(LogFault::Disk) => return Turn::Over(Followed::Disk),
        Err(LogFault::Memory) => return Turn::Over(Followed::Memory),
    };
    match offer_bytes(alloc, number, &payload) {
        Err(_) => Turn::Over(Followed::Memory),
        Ok(text) => match write_all(link, &text) {
            Ok(()) => Turn::GoesOn,
            Err(Failed) => Turn::Over(Followed::Link),
        },
    }
}

// Reads one have and does what it asks.
fn ship_message<S: RecordLog, K: Link>(
    alloc: Global,
    log: &mut S,
    link: &mut K,
    kept: &mut Kept,
) -> Turn
    requires { AllowsAll K.tells K.allows }
    ensures turns { IsTrue (S.tells log.old) → IsTrue (K.tells link.old) → (text : List ℕ)
        × (K.written link.new ≡ K.written link.old ++ text)
        × Turns (S.records log.old) (bytes_of kept.old ++ K.left link.old) text
        (bytes_of kept.new ++ K.left link.new) result }
    ensures ends { IsTurnEnd result }
    ensures done { (count : ℕ) → result ≡ Turn.Over (Followed.Done count)
        → count ≡ length (S.records log.old) }
    ensures same { S.records log.new ≡ S.records log.old }
    ensures lost { IsTrue (S.tells log.old) → (n : ℕ) → result ≢ Turn.Over (Followed.Lost n) }
    ensures tells { S.tells log.new ≡ S.tells log.old }
    ensures later { S.is_later log.old log.new }
    ensures failed { result ≡ Turn.Over Followed.Link
        → Rose (K.faults link.old) (K.faults link.new) }
    ensures disk { result ≡ Turn.Over Followed.Disk
        → Rose (S.faults log.old) (S.faults log.new) }
    ensures grows { S.faults log.old ≤ S.faults log.new }
    ensures frame { IsLent K.tells K.identity K.faults link.old link.new }
{
    let all = log.count();
    match next_have(alloc, link, kept) {
        Ok(count) => {
            if count < all {
                return send_offer(alloc, log, link, count);
            }
            if all < count {
                return Turn::Over(Followed::Peer(PeerFault::Above(count)));
            }
            match write_all(link, &[3]) {
                Ok(()) => Turn::Over(Followed::Done(all)),
                Err(Failed) => Turn::Over(Followed::Link),
            }
        }
        Err(MessageFault::Peer(fault)) => Turn::Over(Followed::Peer(fault)),
        Err(MessageFault::Link) => Turn::Over(Followed::Link),
        Err(MessageFault::Memory) => Turn::Over(Followed::Memory),
    }
}

/// Ships the records that a follower asks for, until it has all of them: writes the offer of each
/// record whose number comes in a have, and the end after the have of their count. It reads at most
/// two haves for each record, and one more.
pub fn ship_link<S: RecordLog, K: Link>(alloc: Global, log: &mut S, link: &mut K) -> Followed
    requires { AllowsAll K.tells K.allows }
    // Promise: For each have of a record a shipper wrote its offer, in their order, and 03 after
    // the have of all; where it is not `Done`, a beginning of these. It read at most two haves for
    // each record and one more. This holds of a log that reports its records
    // - by `shipped` (`IsShipped`)
    ensures shipped { IsTrue (S.tells log.old) → IsTrue (K.tells link.old) → (text : List ℕ)
        × (K.written link.new ≡ K.written link.old ++ text)
        × IsShipped (S.records log.old) (K.left link.old) text result }
    // Whether the log and the link tell or not.
    // Promise: Whatever is reported, a shipper's link ends with no refused offer and with no file
    // that is full
    // - by `ends` (`IsShipperEnd`)
    ensures ends { IsShipperEnd result }
    // Promise: `Done` has the count of the records
    ensures done { (count : ℕ) → result ≡ Followed.Done count
        → count ≡ length (S.records log.old) }
    ensures same { S.records log.new ≡ S.records log.old }
    // Promise: A log that reports its records never answers that one is lost, and reports them
    // still
    // - of `ship_link`, `RecordLog::record`
    // - by `lost`, `tells`
    ensures lost { IsTrue (S.tells log.old) → (n : ℕ) → result ≢ Followed.Lost n }
    ensures tells { S.tells log.new ≡ S.tells log.old }
    ensures later { S.is_later log.old log.new }
    ensures failed { result ≡ Followed.Link → Rose (K.faults link.old) (K.faults link.new) }
    ensures disk { result ≡ Followed.Disk → Rose (S.faults log.old) (S.faults log.new) }
    ensures grows { S.faults log.old ≤ S.faults log.new }
    ensures frame { IsLent K.tells K.identity K.faults link.old link.new }
{
    let mut kept = Kept::new(alloc);
    let most = 2 * log.count() as u128 + 1;
    'haves: for _read in 0..most {
        match ship_message(alloc, log, link, &mut kept) {
            Turn::GoesOn => {}
            Turn::Over(followed) => return followed,
        }
    }
    Followed::Peer(PeerFault::TooManyHaves)
}
