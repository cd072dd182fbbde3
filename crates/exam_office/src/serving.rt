//! How the item of a session is served.

ghost use Rattle.std.specs.Prelude.{◌≡◌, Some, IfOk, IfErr};
ghost use Rattle.history_model.specs.declared.refusal.Refusal.TheVariants.{Memory as OutOfMemory};
ghost use Rattle.history_model.specs.Places.{place};
ghost use Rattle.exam_office.specs.Marks.{history};
ghost use Rattle.exam_office.specs.Calls.{refused_with};
ghost use Rattle.exam_office.specs.Asking.{IsDurable, Steps, IsSettled};
ghost use Rattle.exam_office.specs.Serving.{IsPendingThere, IsAssembledFor, IsTriedAlong, IsTried, IsServedAlong, IsServed};

use crate::office::Office;
use branch_bound::{Assembled, assemble_from};
use exam_edge::Disk;
use history_model::{Place, Refusal};
use std::alloc::Global;

impl<'a, D: Disk> Office<'a, D> {
    /// What is assembled for a session that waits for an item, with the base as the hint, from the
    /// vector that is kept for the session. If there is no memory for that, it begins with none.
    fn assembled(&self, alloc: Global, session: u32) -> Result<Assembled<'a>, Refusal>
        requires { IsPendingThere self.now.plan (history self.now.marks) session }
        ensures assembled { IfOk result (IsAssembledFor self.now.bank self.now.plan self.now.base
            (history self.now.marks) session) }
        ensures memory { IfErr result (λ refusal. refusal ≡ OutOfMemory) }
    {
        let _ = self.book.entries();
        let Some(problem) = self.book.problem(session) else {
            unreachable!()
        };
        let base = self.base;
        let warm = self.warm_or_none(alloc, session);
        let budget = self.spec.budget() as u16;
        match assemble_from(alloc, problem, Some(&base), budget, warm.as_ref()) {
            Ok(assembled) => Ok(assembled),
            Err(_) => Err(Refusal::Memory),
        }
    }

    /// Assembles for a session that waits for an item, and commits that: its item is served, or its
    /// eligibility is set aside.
    fn try_to_serve(&mut self, alloc: Global, session: u32) -> Result<Place, Refusal>
        requires pending { IsPendingThere self.old.plan (history self.old.marks) session }
        requires durable { IsDurable self.old.bank self.old.plan self.old }
        ensures steps { Steps (IsTriedAlong self.old.bank self.old.plan self.old.base
            (history self.old.marks) session) self.old self.new }
        ensures tried { IsTried self.old.bank self.old.plan self.old.base session
            self.old self.new (refused_with result) }
        ensures at { IfOk result (λ at. place self.new.plan (history self.new.marks) session
            ≡ Some at) }
    {
        match self.assembled(alloc, session) {
            Ok(assembled) => self.commit(alloc, &assembled),
            Err(refusal) => Err(refusal),
        }
    }

    /// Serves the item of a session that waits for one. If eligibility has to be set aside first,
    /// there are two tries.
    pub(crate) fn serve_pending(&mut self, alloc: Global, session: u32) -> Result<Place, Refusal>
        requires pending { IsPendingThere self.old.plan (history self.old.marks) session }
        requires durable { IsDurable self.old.bank self.old.plan self.old }
        ensures steps { Steps (IsServedAlong self.old.bank self.old.plan self.old.base
            (history self.old.marks) session) self.old self.new }
        ensures served { IsServed self.old.bank self.old.plan self.old.base session
            self.old self.new (refused_with result) }
        ensures at { IfOk result (λ at. place self.new.plan (history self.new.marks) session
            ≡ Some at) }
        ensures settled { IfOk result IsSettled }
    {
        let _ = self.book.entries();
        match self.try_to_serve(alloc, session) {
            Ok(at) => match at {
                Place::Pending(_) => self.try_to_serve(alloc, session),
                _ => Ok(at),
            },
            Err(refusal) => Err(refusal),
        }
    }
}
