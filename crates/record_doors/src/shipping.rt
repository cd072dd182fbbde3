//! The door of a shipper.
ghost use Rattle.std.specs.Prelude.{◌≡◌, ◌≤◌, true, false};
ghost use Rattle.exam_edge.specs.Allowing.{AllowsAll};
ghost use Rattle.exam_edge.specs.Faults.{Rose};
ghost use Rattle.record_doors.specs.Doors.{IsShippedDoor, TakesBack};
ghost use Rattle.record_doors.specs.Links.{IsShippedLink};

use crate::DoorEnd;
use exam_edge::Door;
use record_links::{Followed, RecordLog, ship_link};
use std::alloc::Global;

// Ships over a link that is out, and gives it back to its door.
fn ship_out<S: RecordLog, L: Door>(
    alloc: Global,
    log: &mut S,
    door: &mut L,
    link: L::Link,
) -> Followed
    requires out { L.is_out door.old ≡ true }
    requires allowed { AllowsAll L.Link.tells L.Link.allows }
    ensures shipped { (back : L.Link)
        × TakesBack L.tells L.coming L.returned L.is_out L.faults L.identity door.old door.new back
        × IsShippedLink L.Link.tells L.Link.left L.Link.written L.Link.faults L.Link.identity
        (S.tells log.old) (S.records log.old) result link back }
    ensures same { S.records log.new ≡ S.records log.old }
    ensures tells { S.tells log.new ≡ S.tells log.old }
    ensures later { S.is_later log.old log.new }
    ensures disk { result ≡ Followed.Disk → Rose (S.faults log.old) (S.faults log.new) }
    ensures grows { S.faults log.old ≤ S.faults log.new }
{
    let mut link = link;
    let followed = ship_link(alloc, log, &mut link);
    door.back(link);
    followed
}

/// Takes one link of a door, ships records over it, and gives it back. No link of the door may be
/// out before.
pub fn ship_door<S: RecordLog, L: Door>(alloc: Global, log: &mut S, door: &mut L) -> DoorEnd
    requires home { L.is_out door.old ≡ false }
    requires allowed { AllowsAll L.Link.tells L.Link.allows }
    // Promise: One link of a door is taken, and goes back to it. If the records and the link are
    // reported, the offers of the records that were asked for were written; `Done` has the count of
    // the records, and no refused offer ended it
    // - of `ship_door`, `ship_first`
    // - by `shipped` (`IsShippedDoor`)
    ensures shipped { IsShippedDoor L.tells L.coming L.returned L.is_out L.faults L.identity
        L.Link.tells L.Link.left L.Link.written L.Link.faults L.Link.identity
        (S.tells log.old) (S.records log.old) door.old door.new result }
    ensures same { S.records log.new ≡ S.records log.old }
    ensures tells { S.tells log.new ≡ S.tells log.old }
    ensures later { S.is_later log.old log.new }
    ensures disk { result ≡ DoorEnd.Ended Followed.Disk
        → Rose (S.faults log.old) (S.faults log.new) }
    ensures grows { S.faults log.old ≤ S.faults log.new }
{
    match door.accept() {
        Err(_) => DoorEnd::DoorFailed,
        Ok(None) => DoorEnd::NoLink,
        Ok(Some(link)) => DoorEnd::Ended(ship_out(alloc, log, door, link)),
    }
}
