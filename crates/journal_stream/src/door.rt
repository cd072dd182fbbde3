//! The door of a stream.
ghost use Rattle.std.specs.Prelude.{◌≡◌, ◌≤◌, true, false};
ghost use Rattle.exam_edge.specs.Allowing.{AllowsAll};
ghost use Rattle.exam_edge.specs.Faults.{Rose};
ghost use Rattle.record_doors.specs.Doors.{TakesBack};
ghost use Rattle.journal_stream.specs.Doors.{Continues, IsNextOf, IsStreamedDoor, IsStreamedLink};

use exam_edge::Door;
use record_doors::DoorEnd;
use record_links::{Followed, GrowingLog, PeerFault, stream_link};
use std::alloc::Global;
use std::sync::Wait;

/// What comes after one link of a stream.
#[derive(Clone, Copy)]
enum Next {
    /// The next link.
    GoesOn,
    /// None: the work at the door has ended so.
    Over(DoorEnd),
}

// What comes after a link that ended so: the next one, if the link failed or the follower ended it.
fn next_of(followed: Followed) -> Next
    ensures { IsNextOf followed result }
{
    match followed {
        Followed::Link => Next::GoesOn,
        Followed::Peer(PeerFault::Cut) => Next::GoesOn,
        other => Next::Over(DoorEnd::Ended(other)),
    }
}

// Streams over a link that is out, and gives it back to its door.
fn stream_out<G: GrowingLog, L: Door, R: Wait>(
    rt: &R,
    alloc: Global,
    log: &mut G,
    door: &mut L,
    link: L::Link,
) -> Followed
    requires out { L.is_out door.old ≡ true }
    requires allowed { AllowsAll L.Link.tells L.Link.allows }
    ensures streamed { (back : L.Link)
        × TakesBack L.tells L.coming L.returned L.is_out L.faults L.identity door.old door.new back
        × IsStreamedLink L.Link.tells L.Link.left L.Link.written L.Link.faults L.Link.identity
        (G.tells log.old) result (G.records log.old) link (G.records log.new) back }
    ensures tells { G.tells log.new ≡ G.tells log.old }
    ensures disk { result ≡ Followed.Disk → Rose (G.faults log.old) (G.faults log.new) }
    ensures grows { G.faults log.old ≤ G.faults log.new }
{
    let mut link = link;
    let followed = stream_link(rt, alloc, log, &mut link);
    door.back(link);
    followed
}

// Streams over the next link of a door, if it gives one, and gives it back.
fn stream_next<G: GrowingLog, L: Door, R: Wait>(
    rt: &R,
    alloc: Global,
    log: &mut G,
    door: &mut L,
) -> Next
    requires home { L.is_out door.old ≡ false }
    requires allowed { AllowsAll L.Link.tells L.Link.allows }
    ensures next { Continues L.tells L.coming L.returned L.is_out L.faults L.identity
        L.Link.tells L.Link.left L.Link.written L.Link.faults L.Link.identity
        (G.tells log.old) (G.records log.old) door.old door.new (G.records log.new) result }
    ensures tells { G.tells log.new ≡ G.tells log.old }
    ensures disk { result ≡ Next.Over (DoorEnd.Ended Followed.Disk)
        → Rose (G.faults log.old) (G.faults log.new) }
    ensures grows { G.faults log.old ≤ G.faults log.new }
{
    match door.accept() {
        Err(_) => Next::GoesOn,
        Ok(None) => Next::Over(DoorEnd::NoLink),
        Ok(Some(link)) => {
            let followed = stream_out(rt, alloc, log, door, link);
            next_of(followed)
        }
    }
}

/// Streams over the links of a door one after another. After a link that failed, or that the
/// follower ended, and after an accept that failed, it takes the next one. It ends where the door
/// gives no more links, or by a fault of the log, of the follower or of memory. No link of the door
/// may be out before.
pub fn stream_door<G: GrowingLog, L: Door, R: Wait>(
    rt: &R,
    alloc: Global,
    log: &mut G,
    door: &mut L,
) -> DoorEnd
    requires home { L.is_out door.old ≡ false }
    requires allowed { AllowsAll L.Link.tells L.Link.allows }
    // Promise: The links of a door are streamed over, one after another, each from the records that
    // the one before it left, and each goes back to its door. If records and links are reported,
    // what was written over each are the offers that answer its haves, each of a record that was
    // settled when it was sent. It ends where the door gives no other link, or at the first link
    // that neither failed nor was ended by the follower
    // - by `streamed` (`IsStreamedDoor`, `IsStreamed`)
    ensures streamed { IsStreamedDoor L.tells L.coming L.returned L.is_out L.faults L.identity
        L.Link.tells L.Link.left L.Link.written L.Link.faults L.Link.identity
        (G.tells log.old) (G.records log.old) door.old door.new (G.records log.new) result }
    ensures tells { G.tells log.new ≡ G.tells log.old }
    // Promise: `Disk` comes only where the file's count of faults rose
    // - by `disk`, `grows`, `tells`
    ensures disk { result ≡ DoorEnd.Ended Followed.Disk
        → Rose (G.faults log.old) (G.faults log.new) }
    ensures grows { G.faults log.old ≤ G.faults log.new }
{
    'links: for _ in rt.forever() {
        match stream_next(rt, alloc, log, door) {
            Next::GoesOn => {}
            Next::Over(end) => return end,
        }
    }
    unreachable!()
}
