//! The vector that the search for a session's next form may begin with.

ghost use Rattle.std.specs.Prelude.{◌≡◌, None, IfOk, IfErr, IfSome};
ghost use Rattle.history_model.specs.declared.request.Request.TheVariants.{Look};
ghost use Rattle.history_model.specs.Refusals.{refusal_of};
ghost use Rattle.exam_office.specs.Marks.{history};
ghost use Rattle.exam_office.specs.Warm.{FitsPlan, IsWarm, IsColdBy};

use crate::office::Office;
use exam_edge::Disk;
use history_model::Refusal;
use proof_tree::Vector;
use std::alloc::Global;

impl<'a, D: Disk> Office<'a, D> {
    /// The vector that the search for a session's next form may begin with: a copy of the first
    /// vector of the tree in the session's last record that serves an item. None where there is no
    /// such record, its tree has no vector, or the vector names a side that is neither of the plan
    /// nor of the cap. A session that isn't started is refused, and else only memory may be
    /// wanting.
    pub fn warm(&self, alloc: Global, session: u32) -> Result<Option<Vector>, Refusal>
        // Promise: A session that is not started is refused with the number of sessions. Else the
        // only error is lack of memory
        // - by `started`, `refused` (`IsColdBy`)
        ensures started { IfOk result (λ found. refusal_of self.now.bank self.now.plan
            (history self.now.marks) (Look session) ≡ None) }
        // Promise: The vector that the search for a session's next form may begin with is the first
        // one of the tree in the session's last record that serves an item
        // - by `warm` (`IsWarm`)
        // Promise: The records are those of the office's history. The journal of a disk that
        // reports its content holds them, and perhaps the one in doubt after them
        // - by `warm` (`IsWarm`)
        // Promise: There is no such vector where there is no such record, its tree has no vector,
        // or the vector names a side that is neither the plan's nor of the cap
        // - by `warm` (`IsWarm`), `sides`
        ensures warm { IfOk result (IsWarm self.now session) }
        // Each side is one of the plan's, or of the cap.
        ensures sides { IfOk result
            (λ found. IfSome found (FitsPlan self.now.bank self.now.plan)) }
        ensures refused { IfErr result (IsColdBy self.now session) }
    {
        match self.book.place(session) {
            Some(_) => {}
            None => return Err(Refusal::NoSession(self.book.sessions())),
        }
        match self.vectors.copy(alloc, session) {
            Ok(vector) => Ok(vector),
            Err(_) => Err(Refusal::Memory),
        }
    }

    /// The same; none if there is no memory for it.
    pub(crate) fn warm_or_none(&self, alloc: Global, session: u32) -> Option<Vector>
        ensures { IfSome result (FitsPlan self.now.bank self.now.plan) }
    {
        match self.warm(alloc, session) {
            Ok(vector) => vector,
            Err(_) => None,
        }
    }
}
