//! The first of several doors.
ghost use Rattle.std.specs.Prelude.{◌≡◌, ◌≤◌, All, false, length};
ghost use Rattle.exam_edge.specs.Allowing.{AllowsAll};
ghost use Rattle.exam_edge.specs.Faults.{Rose};
ghost use Rattle.record_doors.specs.Doors.{IsFirstOnly, IsFollowedDoor, IsShippedDoor};
ghost use Rattle.record_links.specs.declared.followed.Followed.TheVariants.{Disk};
ghost use Rattle.record_links.specs.Replicas.{IsSameRule};

use crate::{DoorEnd, follow_door, ship_door};
use exam_edge::Door;
use record_links::{RecordLog, Replica};
use std::alloc::Global;
use std::sync::Wait;

/// Follows the links of the first door. No door counts as one that gives no link. No link of a door
/// may be out before.
pub fn follow_first<F: Replica, L: Door, R: Wait>(
    rt: &R,
    alloc: Global,
    replica: &mut F,
    doors: &mut [L],
) -> DoorEnd
    requires home { All (λ door. L.is_out door ≡ false) doors.old }
    requires allowed { AllowsAll L.Link.tells L.Link.allows }
    // Promise: Of several doors only the first is used; no door counts as one that gives no link
    // - of `follow_first`, `ship_first`
    // - by `followed`, `shipped` (`IsFirstOnly`), `length`
    ensures followed { IsFirstOnly (λ door after.
        IsFollowedDoor L.tells L.coming L.returned L.is_out L.faults L.identity
        L.Link.tells L.Link.left L.Link.written L.Link.faults L.Link.identity
        (F.may_follow replica.old) (F.size replica.old) (F.limit replica.old)
        (F.held replica.old) door after (F.held replica.new) result)
        ((result ≡ DoorEnd.NoLink) × (F.held replica.new ≡ F.held replica.old))
        doors.old doors.new }
    ensures length { length doors.new ≡ length doors.old }
    ensures rule { IsSameRule (F.may_follow replica.old) (F.may_follow replica.new)
        (F.size replica.old) (F.size replica.new) (F.limit replica.old) (F.limit replica.new) }
    ensures later { F.is_later replica.old replica.new }
    ensures disk { result ≡ DoorEnd.Ended Disk
        → Rose (F.faults replica.old) (F.faults replica.new) }
    ensures grows { F.faults replica.old ≤ F.faults replica.new }
{
    if doors.is_empty() {
        return DoorEnd::NoLink;
    }
    follow_door(rt, alloc, replica, &mut doors[0])
}

/// Ships records over one link of the first door. No door counts as one that gives no link. No link
/// of a door may be out before.
pub fn ship_first<S: RecordLog, L: Door>(alloc: Global, log: &mut S, doors: &mut [L]) -> DoorEnd
    requires home { All (λ door. L.is_out door ≡ false) doors.old }
    requires allowed { AllowsAll L.Link.tells L.Link.allows }
    ensures shipped { IsFirstOnly (λ door after.
        IsShippedDoor L.tells L.coming L.returned L.is_out L.faults L.identity
        L.Link.tells L.Link.left L.Link.written L.Link.faults L.Link.identity
        (S.tells log.old) (S.records log.old) door after result)
        (result ≡ DoorEnd.NoLink) doors.old doors.new }
    ensures length { length doors.new ≡ length doors.old }
    ensures same { S.records log.new ≡ S.records log.old }
    ensures tells { S.tells log.new ≡ S.tells log.old }
    ensures later { S.is_later log.old log.new }
    ensures disk { result ≡ DoorEnd.Ended Disk
        → Rose (S.faults log.old) (S.faults log.new) }
    ensures grows { S.faults log.old ≤ S.faults log.new }
{
    if doors.is_empty() {
        return DoorEnd::NoLink;
    }
    ship_door(alloc, log, &mut doors[0])
}
