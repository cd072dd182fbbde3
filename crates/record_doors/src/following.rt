//! The door of a follower.
ghost use Rattle.std.specs.Prelude.{◌≡◌, ◌≤◌, true, false};
ghost use Rattle.exam_edge.specs.Allowing.{AllowsAll};
ghost use Rattle.exam_edge.specs.Faults.{Rose};
ghost use Rattle.record_doors.specs.Doors.{IsFollowedDoor, Continues, TakesBack, IsNextOf};
ghost use Rattle.record_doors.specs.Links.{IsFollowedLink};
ghost use Rattle.record_links.specs.Replicas.{IsSameRule};

use crate::DoorEnd;
use crate::door_end::Next;
use exam_edge::Door;
use record_links::{Followed, Replica, follow_link};
use std::alloc::Global;
use std::sync::Wait;

// What comes after a link that ended so.
fn next_of(followed: Followed) -> Next
    ensures { IsNextOf followed result }
{
    match followed {
        Followed::Done(_) => Next::GoesOn,
        other => Next::Over(DoorEnd::Ended(other)),
    }
}

// Follows a link that is out, and gives it back to its door.
fn follow_out<F: Replica, L: Door, R: Wait>(
    rt: &R,
    alloc: Global,
    replica: &mut F,
    door: &mut L,
    link: L::Link,
) -> Followed
    requires out { L.is_out door.old ≡ true }
    requires allowed { AllowsAll L.Link.tells L.Link.allows }
    ensures followed { (back : L.Link)
        × TakesBack L.tells L.coming L.returned L.is_out L.faults L.identity door.old door.new back
        × IsFollowedLink L.Link.tells L.Link.left L.Link.written L.Link.faults L.Link.identity
        (F.may_follow replica.old) (F.size replica.old) (F.limit replica.old) result
        (F.held replica.old) link (F.held replica.new) back }
    ensures rule { IsSameRule (F.may_follow replica.old) (F.may_follow replica.new)
        (F.size replica.old) (F.size replica.new) (F.limit replica.old) (F.limit replica.new) }
    ensures later { F.is_later replica.old replica.new }
    ensures disk { result ≡ Followed.Disk → Rose (F.faults replica.old) (F.faults replica.new) }
    ensures grows { F.faults replica.old ≤ F.faults replica.new }
{
    let mut link = link;
    let followed = follow_link(rt, alloc, replica, &mut link);
    door.back(link);
    followed
}

// Follows the next link of a door, and gives it back.
fn follow_next<F: Replica, L: Door, R: Wait>(
    rt: &R,
    alloc: Global,
    replica: &mut F,
    door: &mut L,
) -> Next
    requires home { L.is_out door.old ≡ false }
    requires allowed { AllowsAll L.Link.tells L.Link.allows }
    ensures next { Continues L.tells L.coming L.returned L.is_out L.faults L.identity
        L.Link.tells L.Link.left L.Link.written L.Link.faults L.Link.identity
        (F.may_follow replica.old) (F.size replica.old) (F.limit replica.old)
        (F.held replica.old) door.old door.new (F.held replica.new) result }
    ensures rule { IsSameRule (F.may_follow replica.old) (F.may_follow replica.new)
        (F.size replica.old) (F.size replica.new) (F.limit replica.old) (F.limit replica.new) }
    ensures later { F.is_later replica.old replica.new }
    ensures disk { result ≡ Next.Over (DoorEnd.Ended Followed.Disk)
        → Rose (F.faults replica.old) (F.faults replica.new) }
    ensures grows { F.faults replica.old ≤ F.faults replica.new }
{
    match door.accept() {
        Err(_) => Next::Over(DoorEnd::DoorFailed),
        Ok(None) => Next::Over(DoorEnd::NoLink),
        Ok(Some(link)) => {
            let followed = follow_out(rt, alloc, replica, door, link);
            next_of(followed)
        }
    }
}

/// Follows the links of a door one after another, until it gives no more. The first fault ends it;
/// what was taken stays. No link of the door may be out before.
pub fn follow_door<F: Replica, L: Door, R: Wait>(
    rt: &R,
    alloc: Global,
    replica: &mut F,
    door: &mut L,
) -> DoorEnd
    requires home { L.is_out door.old ≡ false }
    requires allowed { AllowsAll L.Link.tells L.Link.allows }
    // Promise: The links of a door are followed one after another, each from the records that the
    // one before it left, and each goes back to its door. It ends where the door gives no other,
    // where it fails, or at the first link that does not end well
    // - of `follow_door`, `follow_first`
    // - by `followed` (`IsFollowedDoor`)
    // Promise: A door fails, a link ends as failed, and a disk fails only where its count of faults
    // rose; no count falls
    // - of `follow_door`, `follow_first`, `ship_door`, `ship_first`
    // - by `followed`, `shipped`, `disk`, `grows`
    ensures followed { IsFollowedDoor L.tells L.coming L.returned L.is_out L.faults L.identity
        L.Link.tells L.Link.left L.Link.written L.Link.faults L.Link.identity
        (F.may_follow replica.old) (F.size replica.old) (F.limit replica.old)
        (F.held replica.old) door.old door.new (F.held replica.new) result }
    // Promise: The replica keeps its rule, its sizes and its limit, and what no call changes; the
    // log keeps its records
    // - of `follow_door`, `follow_first`, `ship_door`, `ship_first`
    // - by `rule`, `same`, `tells`, `later`
    ensures rule { IsSameRule (F.may_follow replica.old) (F.may_follow replica.new)
        (F.size replica.old) (F.size replica.new) (F.limit replica.old) (F.limit replica.new) }
    ensures later { F.is_later replica.old replica.new }
    ensures disk { result ≡ DoorEnd.Ended Followed.Disk
        → Rose (F.faults replica.old) (F.faults replica.new) }
    ensures grows { F.faults replica.old ≤ F.faults replica.new }
{
    'links: for _ in rt.forever() {
        match follow_next(rt, alloc, replica, door) {
            Next::GoesOn => {}
            Next::Over(end) => return end,
        }
    }
    unreachable!()
}
