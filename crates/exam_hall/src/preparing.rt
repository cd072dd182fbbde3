//! The turn of a look ahead.

ghost use Rattle.exam_office.specs.Marks.{history};
ghost use Rattle.exam_hall.specs.Foreseeing.{Foretells, Foreseeing};

use crate::asking::vector_for;
use constraint_model::Problem;
use exam_edge::Disk;
use exam_office::Office;
use proof_tree::Vector;
use std::alloc::Global;
use turn_lock::Move as TurnMove;

/// What the form of a session's next step can be assembled from before its answer comes.
#[derive(Drop)]
pub enum Ahead<'a> {
    /// The problem that the session has with the response, and the vector that its search may begin
    /// with.
    Next {
        problem: Problem<'a>,
        warm: Option<Vector>,
    },
    /// No step follows: the session waits for no answer, its item has no such response, or it is
    /// the last one.
    NoStep,
}

/// Looks ahead for a session with a response.
#[derive(Drop)]
pub(crate) struct Foresee {
    pub(crate) alloc: Global,
    pub(crate) session: u32,
    pub(crate) response: u8,
}

/// What a session's next step can be assembled from.
fn look_ahead<'a, D: Disk>(
    office: &Office<'a, D>,
    alloc: Global,
    session: u32,
    response: u8,
) -> Ahead<'a>
    ensures { Foretells office.now.bank office.now.plan (history office.now.marks) session
        response result }
{
    match office.ahead(session, response) {
        Some(problem) => {
            let warm = vector_for(office, alloc, session);
            Ahead::Next { problem, warm }
        }
        None => Ahead::NoStep,
    }
}

impl<'a, D: Disk> TurnMove<Office<'a, D>> for Foresee {
    type Answer = Ahead<'a>;

    ghost needs = { λ _ _. Unit {0} };

    ghost makes = { λ m before after _ found.
        Foreseeing m.session m.response before after found };

    fn make(&mut self, value: &mut Office<'a, D>) -> Ahead<'a> {
        value.keeps();
        look_ahead(value, self.alloc, self.session, self.response)
    }

    ghost lasts = { λ _ _ _ h. h };
}
