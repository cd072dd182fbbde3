//! The problem that a session has once its item is answered.

ghost use Rattle.std.specs.Prelude.{◌↔◌, ℕ, ◌<◌, IfSome, IfNone};
ghost use Rattle.exam_office.specs.Ahead.{HasNextStep, IsNextProblem, LeadsTo};
ghost use Rattle.exam_office.specs.Marks.{history};

use crate::office::Office;
use constraint_model::Problem;
use exam_edge::Disk;
use history_model::Place;
use shadow_select::{next_problem, with_response};

impl<'a, D: Disk> Office<'a, D> {
    /// The number of responses that lead a session to a next step: that of the categories of the
    /// item that waits for its answer. 0 where none waits, or it is the last one.
    pub fn next_responses(&self, session: u32) -> u8
        ensures { (response : ℕ) → (response < result) ↔ HasNextStep self.now.bank
            self.now.plan (history self.now.marks) session response }
    {
        match self.book.place(session) {
            Some(place) => match place {
                Place::Waiting { step, item, .. } => {
                    if u32::from(step) + 1 < self.spec.length() {
                        self.bank.categories(item)
                    } else {
                        0
                    }
                }
                _ => 0,
            },
            None => 0,
        }
    }

    /// The problem that a session has once its item is answered with this response, made before the
    /// answer comes. None where the session waits for no answer, the item has no such response, or
    /// the item is the last one. It takes no memory.
    pub fn ahead(&self, session: u32, response: u8) -> Option<Problem<'a>>
        // Promise: Before its item is answered, a session's next problem with a response is known:
        // exactly where the item has that response and is not the last one. It is the problem of
        // the history with that answer added, and well made
        // - of `Office::ahead`, `Office::next_responses`
        // - by `ahead` (`IsNextProblem`), `none`, the clause (`HasNextStep`)
        ensures ahead { IfSome result (IsNextProblem self.now.bank self.now.plan
            (history self.now.marks) session response) }
        // Promise: Whatever is done meanwhile, once that response is recorded and the next item is
        // to be served, it is the session's problem, if eligibility is set aside in its band
        // exactly where it is in that problem
        // - by `leads` (`LeadsTo`)
        ensures leads { IfSome result (LeadsTo self.now.bank self.now.plan
            (history self.now.marks) session response) }
        ensures none { IfNone result (HasNextStep self.now.bank self.now.plan
            (history self.now.marks) session response → ⊥) }
    {
        let _ = self.book.entries();
        if response >= self.next_responses(session) {
            return None;
        }
        let Some(seat) = self.book.seat(session) else {
            unreachable!()
        };
        let answered = with_response(&seat, response);
        next_problem(self.bank, self.spec, session, &answered)
    }
}
