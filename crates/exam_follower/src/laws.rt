//! What holds of a follower over any number of openings of its file: functions that do nothing, and
//! whose clauses are laws.

ghost use Rattle.std.specs.Prelude.{IsTrue};
ghost use Rattle.answer_journal.specs.Journal.{tells_of};
ghost use Rattle.exam_follower.specs.Openings.{TakesInWorld, FailsInWorld, LinksInWorld, OpensInWorld};

use crate::Follower;
use exam_edge::Disk;

/// What a follower does with offers that were sent happens in the world of its leader, by the rule
/// of its bank and its plan, which is one for all openings.
pub fn all_in_one_world<'a, D: Disk>(follower: &Follower<'a, D>)
    // Promise: What a follower does with offers that were sent is events of the leader's world by
    // that rule: offers that are taken, one alone or over a link, and faults. This holds of a disk
    // that reports its content
    // - by `taken`, `fault`, `links` (`TakesInWorld`, `FailsInWorld`, `LinksInWorld`)
    ensures taken { IsTrue (tells_of follower.now.office.journal) → TakesInWorld follower.now }
    ensures fault { IsTrue (tells_of follower.now.office.journal) → FailsInWorld follower.now }
    ensures links { IsTrue (tells_of follower.now.office.journal) → LinksInWorld follower.now }
{
    let _ = &follower.office;
}

/// A follower that is opened over the file that a stop left is in the world of the one before: it
/// has a beginning of the leader's records, and each record that any opening of the file answered
/// for.
pub fn openings_in_one_world<'a, 'b, D: Disk>(earlier: &Follower<'a, D>, _later: &Follower<'b, D>)
    // Promise: A follower that is opened over a file which a stop left, between two calls or at any
    // moment of a delivery, is in the world of the one before. Each have that was answered still
    // counts there
    // - by the clause (`OpensInWorld`)
    ensures { IsTrue (tells_of earlier.now.office.journal)
        → OpensInWorld earlier.now _later.now }
{
    let _ = &earlier.office;
}
