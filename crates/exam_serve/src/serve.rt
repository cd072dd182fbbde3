//! The work of a server, from an office and doors to the office and the doors.

ghost use Rattle.std.specs.Prelude.{◌≡◌, ◌≤◌, ◌⊎◌, [], List, false, length, vec_len, vec_capacity, IfOk};
ghost use Rattle.std.specs.List.{All};
ghost use Rattle.std.specs.Option.{option_copied};
ghost use Rattle.exam_hall.specs.Known.{HasGrown, IsOf};
ghost use Rattle.prepare_desk.specs.Posts.{IsFirstOf};
ghost use Rattle.prepare_desk.specs.Desks.{purpose_in, purpose_of};
ghost use Rattle.exam_serve.specs.Allowing.{AreFairDoors, IsCallerOf};
ghost use Rattle.turn_lock.specs.Histories.{StartsWith};
ghost use Rattle.turn_lock.specs.Passes.{KnowsAll, new_pass};
ghost use Rattle.exam_serve.specs.declared.serve.End.TheVariants as end;
ghost use Rattle.exam_serve.specs.Doors.{AreLent, AreServed, HasFailedDoor, HasNone};
ghost use Rattle.exam_serve.specs.Results.{IsResult};
ghost use Rattle.exam_office.specs.Noting.{NotedMark, opened_with};

use crate::connections::{Attendant, Connections};
use crate::stations::{Cleared, clear_stations, make_stations};
use exam_edge::{Disk, Door, Gate, Memory};
use exam_hall::Hall;
use exam_handler::Observer;
use exam_office::Office;
use exam_workers::{Station, run_workers};
use prepare_desk::{Desk, shared};
use std::alloc::Global;
use std::sync::Wait;
use std::sync::atomic::AtomicU32;
use std::thread::Threads;
use turn_lock::{Pass, Turn};

/// How the work ended.
#[derive(Clone, Copy, Debug, PartialEq, Eq)]
pub enum End {
    /// Each door gave no more links.
    Done,
    /// Each door gave no more links, but a connection ended for lack of memory.
    Starved,
    /// A door failed, and has counted that.
    DoorFailed,
    /// Out of memory, before any link was accepted.
    Memory,
}

/// What is left of the work.
pub struct Served<'a, D: Disk, L> {
    /// The office, with all that was done.
    pub office: Office<'a, D>,
    /// The doors, in their order.
    pub doors: Vec<L>,
    /// How the work ended.
    pub end: End,
}

/// How the work ended.
fn end_of(cleared: Cleared) -> End
    ensures { result ≡ Rattle.exam_serve.specs.Doors.end_of cleared.failed cleared.starved }
{
    if cleared.failed {
        End::DoorFailed
    } else if cleared.starved {
        End::Starved
    } else {
        End::Done
    }
}

/// Room for so many stations, and a desk for the hall of an office, with room for so many prepared
/// forms, at least one.
fn room_for<'h, 'a, D: Disk, G: Gate + Observer, L: Door>(
    alloc: Global,
    office: &Office<'a, D>,
    doors: usize,
    ahead: Option<u32>,
) -> Result<
    (
        Vec<Station<L, Attendant<'h, 'a, D, G>>>,
        Turn<Desk<'a>>,
        Pass<Desk<'a>>,
    ),
    Memory,
>
    ensures empty { IfOk result (λ r. r.0.items ≡ []) }
    ensures room { IfOk result (λ r. doors ≤ vec_capacity r.0) }
    ensures desk { IfOk result (λ r. IsFirstOf r.1 (purpose_in office.now) r.2) }
    ensures splits { IfOk result (λ r. r.2.splits ≡ 0) }
{
    let Ok(stations) = Vec::with_capacity(alloc, doors) else {
        return Err(Memory);
    };
    let room = ahead.unwrap_or(1);
    match shared(alloc, office.bank(), office.spec(), office.base(), room) {
        Ok((desk, first)) => Ok((stations, desk, first)),
        Err(memory) => {
            stations.destroy_empty();
            Err(memory)
        }
    }
}

/// Serves the links of the doors at a hall, for messages that bear the token if there is one. There
/// is room for a station for each door.
fn serve_at<'h, 'a, R, D, L, G>(
    rt: &R,
    alloc: Global,
    hall: &'h Hall<'a, D>,
    gate: &'h G,
    token: Option<&'h [u8]>,
    pass: &mut Pass<Office<'a, D>>,
    desk: &'h Turn<Desk<'a>>,
    first: &mut Pass<Desk<'a>>,
    prepares: bool,
    doors: &mut Vec<L>,
    stations: Vec<Station<L, Attendant<'h, 'a, D, G>>>,
) -> End
where
    R: Threads + Wait + Sync,
    D: Disk + Send,
    L: Door + Send,
    G: Gate + Observer + Sync,
    requires of { IsOf pass.old hall.now }
    requires new { pass.old ≡ new_pass hall.now.lock 0 (length pass.old.seen) pass.old.seen }
    requires few { vec_len doors.old ≤ 65535 }
    requires desk { IsFirstOf desk.now (purpose_of hall.now) first.old }
    requires splits { first.old.splits ≡ 0 }
    requires home { All (λ d. L.is_out d ≡ false) doors.old.items }
    requires fair { AreFairDoors (option_copied token)
        L.Link.tells L.Link.left L.Link.written L.Link.allows L.tells L.coming
        (λ caller. (caller.hall ≡ hall.now) × HasGrown pass.old caller.pass) doors.old.items }
    requires empty { stations.items ≡ [] }
    requires room { vec_len doors.old ≤ vec_capacity stations }
    // For the marks that are found at the close.
    ensures served { (closed : List NotedMark) → StartsWith closed pass.new.seen
        → KnowsAll closed pass.new → AreServed (option_copied token.entry)
        L.tells L.coming L.returned L.is_out L.faults L.identity
        L.Link.tells L.Link.left L.Link.written L.Link.faults L.Link.identity
        pass.old.seen closed doors.old.items doors.new.items result }
    ensures of { IsOf pass.new hall.now }
    ensures desk { IsFirstOf desk.now (purpose_of hall.now) first.new }
{
    let mut stations = stations;
    make_stations(
        hall,
        gate,
        pass,
        desk,
        first,
        prepares,
        doors,
        &mut stations,
    );
    let connections = Connections {
        hall,
        gate,
        token,
        busy: AtomicU32::new(0),
    };
    run_workers(rt, alloc, &mut stations, &connections);
    let cleared = clear_stations(hall, pass, doors, &mut stations);
    stations.destroy_empty();
    end_of(cleared)
}

/// Serves the connections of each door over one office, which all doors share, the doors in threads
/// of their own, until each door gives no more links or fails. Where there is a token, a message
/// that does not bear it does nothing, but for a look at the health. At most 65,535 doors, with no
/// link out. Where no thread can be made, the caller does that work itself. The office comes back
/// with one list of marks, which begins with those that it had: of each door, the links that it
/// gave were served in order on one pass, by the bank, the plan and the base form of the office,
/// and came back to it; what a pass saw is a beginning of that list, no mark is the own of two
/// passes, and each mark that was added is the own of one. It may wait, and ends only where each
/// door ends.
pub fn serve_doors<'a, R, D, L, G>(
    rt: &R,
    alloc: Global,
    office: Office<'a, D>,
    gate: &G,
    token: Option<&[u8]>,
    ahead: Option<u32>,
    doors: Vec<L>,
) -> Served<'a, D, L>
where
    R: Threads + Wait + Sync,
    D: Disk + Send,
    L: Door + Send,
    G: Gate + Observer + Sync,
    requires few { vec_len doors ≤ 65535 }
    requires home { All (λ d. L.is_out d ≡ false) doors.items }
    // So of each byte that a client got at any moment, also of a run that never ends: it is of the
    // responses to its messages, in order, each right for marks that a pass of this office's hall
    // has seen.
    // Promise: At each moment, also of a server that never ends, what was written to a link is
    // responses to its messages, in order, and a beginning of the next. Each is right for what a
    // pass of a hall of this office had seen, which begins with the office's marks, each noted with
    // what the office was opened with; the hall was made at these marks
    // - by the condition `fair` (`AreFairDoors`, `IsCallerOf`)
    requires fair { AreFairDoors (option_copied token)
        L.Link.tells L.Link.left L.Link.written L.Link.allows L.tells L.coming
        (IsCallerOf (opened_with office) office.marks) doors.items }
    // What no call changes: the bank, the plan and the base form, which disk it is, and how that
    // was handed in.
    // Promise: The office that comes back has the bank, the plan, the base form and the disk of the
    // one that was handed in, and knows the same of how that disk was handed to it
    ensures same { opened_with result.office ≡ opened_with office.entry }
    // The office's marks at the close begin with those that it had at first.
    // Promise: The office comes back with one list of marks, which begins with the marks that it
    // had. What a pass saw is a beginning of that list, and no mark is the own of two passes
    // - by `begins`, `result` (`AreServed`)
    ensures begins { StartsWith result.office.marks office.entry.marks }
    // Promise: There is one station for each door, in the order of the doors. Each link that its
    // door gave was served, in order, on the station's one pass, and then went back to the door. If
    // the link reports its bytes, what was written is the responses to its messages, by what the
    // pass had seen
    // - by `result` (`AreServed`, `IsWorked`, `IsConnection`)
    // Promise: The requests are served by the bank, the plan and the base form of the office that
    // was handed in
    // - by `result` (`AreServed`, `HasOpening`)
    // Promise: Each mark that was added is the own of a pass on which the links of a door were
    // served. So no entry is one that no request brought
    // - by `result` (`AreServed`, `IsOwnPlace`)
    // Promise: It ends with `Starved`, and not with `Done`, if a connection ended for lack of
    // memory and no door failed
    // - by `result` (`AreServed`, `IsConnection`, `end_of`)
    ensures result { IsResult (option_copied token.entry)
        L.tells L.coming L.returned L.is_out L.faults L.identity
        L.Link.tells L.Link.left L.Link.written L.Link.faults L.Link.identity
        office.entry doors.items result.office result.doors.items result.end }
    // However it ended: each door is the same object, with no fewer faults, and no link of it is
    // out.
    // Promise: However it ends, each door comes back: it is the same object, its count of faults is
    // no lower, and no link of it is out
    // - by `lent` (`AreLent`)
    ensures lent { AreLent L.tells L.identity L.faults L.is_out doors.items result.doors.items }
    // Out of memory, nothing was done.
    // Promise: Out of memory, before any link was accepted, the office and the doors are as they
    // were
    ensures unused { result.end ≡ end.Memory
        → (result.office ≡ office.entry) × (result.doors ≡ doors) }
    // The causes of the end.
    ensures done { (result.end ≡ end.Done) ⊎ (result.end ≡ end.Starved)
        → All (HasNone L.tells L.coming) result.doors.items }
    // Promise: It ends with `DoorFailed` only where a door's count of faults rose. At `Done` and at
    // `Starved` each door that reports its links has none left
    // - by `failed` (`HasFailedDoor`), `done` (`HasNone`)
    ensures failed { result.end ≡ end.DoorFailed
        → HasFailedDoor L.faults doors.items result.doors.items }
{
    let mut doors = doors;
    let (stations, desk, mut first) = match room_for(alloc, &office, doors.len(), ahead) {
        Ok(room) => room,
        Err(_) => {
            return Served {
                office,
                doors,
                end: End::Memory,
            };
        }
    };
    let (hall, mut pass) = match Hall::new(alloc, office) {
        Ok(made) => made,
        Err(office) => {
            stations.destroy_empty();
            let _ = desk.close(rt, first);
            return Served {
                office,
                doors,
                end: End::Memory,
            };
        }
    };
    let prepares = ahead.is_some();
    let end = serve_at(
        rt, alloc, &hall, gate, token, &mut pass, &desk, &mut first, prepares, &mut doors, stations,
    );
    let _ = desk.close(rt, first);
    let office = hall.close(rt, pass);
    Served { office, doors, end }
}
