//! What the definitions mean: functions that do nothing, and whose clauses are laws.
ghost use Rattle.std.specs.Prelude.{ℕ, List, Option};
ghost use Rattle.exam_office.specs.Noting.{NotedMark};
ghost use Rattle.exam_serve.specs.declared.serve.End.TheVariants.{Done};
ghost use Rattle.exam_serve.specs.Doors.{AreServed, AreFed};

use exam_edge::Door;

/// Where the work ended since each door gave no more links, and for nothing else, no connection
/// ended for lack of memory.
pub fn no_connection_starved<L: Door>()
    // Promise: At `Done` no connection of any door ended for lack of memory: each ended since its
    // client closed it or asked for that, at a message that is none, or by a fault of the link
    // - by the clause (`AreFed`, `IsFedConnection`)
    ensures { (token : Option (List ℕ)) (opened closed : List NotedMark) (doors back : List L)
        → AreServed token L.tells L.coming L.returned L.is_out L.faults L.identity
        L.Link.tells L.Link.left L.Link.written L.Link.faults L.Link.identity
        opened closed doors back Done
        → AreFed token L.tells L.coming L.returned L.is_out L.faults L.identity
        L.Link.tells L.Link.left L.Link.written L.Link.faults L.Link.identity doors back }
{}
