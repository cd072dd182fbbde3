//! The leader's side of a link while its records grow.
ghost use Rattle.std.specs.Prelude.{◌≡◌, ◌+◌, ◌≤◌, ◌++◌, List, ℕ, IsTrue, IfOk, IfErr, Some, slice_get};
ghost use Rattle.std.specs.Option.{ForSome};
ghost use Rattle.exam_edge.specs.Allowing.{AllowsAll};
ghost use Rattle.exam_edge.specs.Faults.{Rose};
ghost use Rattle.exam_edge.specs.Lent.{IsLent};
ghost use Rattle.record_links.specs.Messages.{bytes_of, IsPayload};
ghost use Rattle.record_links.specs.Streaming.{Answers, IsGrown, IsLinkEnd, IsReply, IsStop, IsStreamed, IsTurnEnd, Stops, Turns};

use crate::fault::MessageFault;
use crate::followed::Turn;
use crate::growing_log::{AskFault, Asked};
use crate::have::next_have;
use crate::kept::Kept;
use crate::writing::{offer_bytes, write_all};
use crate::{Followed, GrowingLog, PeerFault};
use exam_edge::{Failed, Link};
use std::alloc::Global;
use std::sync::Wait;

// A record with its number.
#[derive(Drop)]
struct Due {
    number: u64,
    payload: Vec<u8>,
}

// The record of a number, if it is there. A fault is an end of the link.
fn find_record<G: GrowingLog>(
    alloc: Global,
    log: &mut G,
    number: u64,
) -> Result<Option<Due>, Followed>
    ensures record { IfOk result (λ found. IsTrue (G.tells log.old) → ForSome found
        (λ due. slice_get (G.records log.new) due.number ≡ Some due.payload.items)) }
    ensures number { IfOk result (λ found. ForSome found (λ due. due.number ≡ number)) }
    ensures fits { IfOk result (λ found. ForSome found (λ due. IsPayload due.payload.items)) }
    ensures stops { IfErr result (λ e. IsTrue (G.tells log.old)
        → Stops (G.records log.new) number e) }
    ensures ends { IfErr result IsStop }
    ensures grown { IsTrue (G.tells log.old) → IsGrown (G.records log.old) (G.records log.new) }
    ensures tells { G.tells log.new ≡ G.tells log.old }
    ensures disk { IfErr result (λ e. e ≡ Followed.Disk
        → Rose (G.faults log.old) (G.faults log.new)) }
    ensures grows { G.faults log.old ≤ G.faults log.new }
{
    match log.ask(alloc, number) {
        Ok(Asked::Record(payload)) => Ok(Some(Due { number, payload })),
        Ok(Asked::NotYet) => Ok(None),
        Ok(Asked::Above) => Err(Followed::Peer(PeerFault::Above(number))),
        Err(AskFault::Disk) => Err(Followed::Disk),
        Err(AskFault::Memory) => Err(Followed::Memory),
    }
}

// What answers the have of a number: its record, once it is there; or, where that takes so long
// that the follower is to hear something meanwhile, the record before it again.
fn await_record<G: GrowingLog, R: Wait>(
    rt: &R,
    alloc: Global,
    log: &mut G,
    number: u64,
) -> Result<Due, Followed>
    ensures record { IfOk result (λ due. IsTrue (G.tells log.old)
        → slice_get (G.records log.new) due.number ≡ Some due.payload.items) }
    ensures number { IfOk result (λ due. IsReply number due.number) }
    ensures fits { IfOk result (λ due. IsPayload due.payload.items) }
    ensures stops { IfErr result (λ e. IsTrue (G.tells log.old)
        → Stops (G.records log.new) number e) }
    ensures ends { IfErr result IsStop }
    ensures grown { IsTrue (G.tells log.old) → IsGrown (G.records log.old) (G.records log.new) }
    ensures tells { G.tells log.new ≡ G.tells log.old }
    ensures disk { IfErr result (λ e. e ≡ Followed.Disk
        → Rose (G.faults log.old) (G.faults log.new)) }
    ensures grows { G.faults log.old ≤ G.faults log.new }
{
    'looks: for _ in rt.forever() {
        if let Some(due) = find_record(alloc, log, number)? {
            return Ok(due);
        }
        let long = log.wait();
        if long && 0 < number {
            // A fault comes back at the next look.
            if let Ok(Some(due)) = find_record(alloc, log, number - 1) {
                return Ok(due);
            }
        }
    }
    unreachable!()
}

// Writes the offer that answers the have of a number.
fn send_next<G: GrowingLog, K: Link, R: Wait>(
    rt: &R,
    alloc: Global,
    log: &mut G,
    link: &mut K,
    number: u64,
) -> Turn
    requires { AllowsAll K.tells K.allows }
    ensures answers { IsTrue (G.tells log.old) → IsTrue (K.tells link.old) → (text : List ℕ)
        × (K.written link.new ≡ K.written link.old ++ text)
        × Answers (G.records log.new) number text result }
    ensures ends { IsTurnEnd result }
    ensures left { IsTrue (K.tells link.old) → K.left link.new ≡ K.left link.old }
    ensures grown { IsTrue (G.tells log.old) → IsGrown (G.records log.old) (G.records log.new) }
    ensures tells { G.tells log.new ≡ G.tells log.old }
    ensures failed { result ≡ Turn.Over Followed.Link
        → Rose (K.faults link.old) (K.faults link.new) }
    ensures disk { result ≡ Turn.Over Followed.Disk
        → Rose (G.faults log.old) (G.faults log.new) }
    ensures grows { G.faults log.old ≤ G.faults log.new }
    ensures frame { IsLent K.tells K.identity K.faults link.old link.new }
{
    let due = match await_record(rt, alloc, log, number) {
        Ok(due) => due,
        Err(followed) => return Turn::Over(followed),
    };
    match offer_bytes(alloc, due.number, &due.payload) {
        Err(_) => Turn::Over(Followed::Memory),
        Ok(text) => match write_all(link, &text) {
            Ok(()) => Turn::GoesOn,
            Err(Failed) => Turn::Over(Followed::Link),
        },
    }
}

// Reads one have and writes the offer that answers it.
fn stream_message<G: GrowingLog, K: Link, R: Wait>(
    rt: &R,
    alloc: Global,
    log: &mut G,
    link: &mut K,
    kept: &mut Kept,
) -> Turn
    requires { AllowsAll K.tells K.allows }
    ensures turns { IsTrue (G.tells log.old) → IsTrue (K.tells link.old) → (text : List ℕ)
        × (K.written link.new ≡ K.written link.old ++ text)
        × Turns (G.records log.new) (bytes_of kept.old ++ K.left link.old) text
        (bytes_of kept.new ++ K.left link.new) result }
    ensures ends { IsTurnEnd result }
    ensures grown { IsTrue (G.tells log.old) → IsGrown (G.records log.old) (G.records log.new) }
    ensures tells { G.tells log.new ≡ G.tells log.old }
    ensures failed { result ≡ Turn.Over Followed.Link
        → Rose (K.faults link.old) (K.faults link.new) }
    ensures disk { result ≡ Turn.Over Followed.Disk
        → Rose (G.faults log.old) (G.faults log.new) }
    ensures grows { G.faults log.old ≤ G.faults log.new }
    ensures frame { IsLent K.tells K.identity K.faults link.old link.new }
{
    match next_have(alloc, link, kept) {
        Ok(number) => send_next(rt, alloc, log, link, number),
        Err(MessageFault::Peer(fault)) => Turn::Over(Followed::Peer(fault)),
        Err(MessageFault::Link) => Turn::Over(Followed::Link),
        Err(MessageFault::Memory) => Turn::Over(Followed::Memory),
    }
}

/// Ships the records that a follower asks for while others are added: for each have it writes the
/// offer of the record of that number, once there is one, or, where that takes long, the offer of
/// the record before it, which the follower has. It ends by a fault of the link, the peer, the log
/// or memory, and not before.
pub fn stream_link<G: GrowingLog, K: Link, R: Wait>(
    rt: &R,
    alloc: Global,
    log: &mut G,
    link: &mut K,
) -> Followed
    requires { AllowsAll K.tells K.allows }
    // Promise: While records are added, `stream_link` wrote one offer for each have: of its record,
    // or of the one before it. Each was among the records when it was sent; where the link failed,
    // a beginning of these. `Peer` comes only where the bytes are no have, or a have above the
    // records
    // - by `streamed` (`IsStreamed`)
    ensures streamed { IsTrue (G.tells log.old) → IsTrue (K.tells link.old) → (text : List ℕ)
        × (K.written link.new ≡ K.written link.old ++ text)
        × IsStreamed (G.records log.old) (G.records log.new) (K.left link.old) text result }
    // Whether the log and the link tell or not.
    // Promise: Such a link ends only by a fault of the link, the peer, the log's file or memory,
    // and the records only become more
    // - by `ends` (`IsLinkEnd`), `grown` (`IsGrown`)
    ensures ends { IsLinkEnd result }
    ensures grown { IsTrue (G.tells log.old) → IsGrown (G.records log.old) (G.records log.new) }
    ensures tells { G.tells log.new ≡ G.tells log.old }
    ensures failed { result ≡ Followed.Link → Rose (K.faults link.old) (K.faults link.new) }
    ensures disk { result ≡ Followed.Disk → Rose (G.faults log.old) (G.faults log.new) }
    ensures grows { G.faults log.old ≤ G.faults log.new }
    ensures frame { IsLent K.tells K.identity K.faults link.old link.new }
{
    let mut kept = Kept::new(alloc);
    'haves: for _ in rt.forever() {
        match stream_message(rt, alloc, log, link, &mut kept) {
            Turn::GoesOn => {}
            Turn::Over(followed) => return followed,
        }
    }
    unreachable!()
}
