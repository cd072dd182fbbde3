//! The first turn of a request.

ghost use Rattle.std.specs.Prelude.{IfSome};
ghost use Rattle.exam_hall.specs.Lasting.{sought_later};
ghost use Rattle.exam_hall.specs.Leading.{IsSought, BeginsRequest};
ghost use Rattle.exam_hall.specs.Turns.{IsBegunAt, IsPlacedReply};
ghost use Rattle.exam_office.specs.Marks.{history};
ghost use Rattle.exam_office.specs.Warm.{FitsPlan};

use bank_tables::ItemSet;
use constraint_model::Problem;
use exam_edge::Disk;
use exam_office::{Office, Refusal, Reply, Request};
use proof_tree::Vector;
use std::alloc::Global;
use turn_lock::Move as TurnMove;

/// What the first turn of a request answers.
#[derive(Drop)]
pub enum FirstAnswer<'a> {
    /// The request is done, with this reply.
    Done(Reply),
    /// Its session waits for an item, with this problem; whether the request started the session;
    /// and the vector that the search may begin with.
    Waits {
        fresh: bool,
        problem: Problem<'a>,
        warm: Option<Vector>,
    },
}

/// Asks an office for the first entry of a request, and for the problem of its session.
#[derive(Drop)]
pub(crate) struct First {
    pub(crate) alloc: Global,
    pub(crate) request: Request,
    /// What the search for a form without the items of the request's list found. A request without
    /// a list doesn't read it.
    pub(crate) witness: Result<ItemSet, Refusal>,
}

/// The vector that the search for a session's next form may begin with; none where memory is
/// wanting.
pub(crate) fn vector_for<'a, D: Disk>(
    office: &Office<'a, D>,
    alloc: Global,
    session: u32,
) -> Option<Vector>
    ensures { IfSome result (FitsPlan office.now.bank office.now.plan) }
{
    match office.warm(alloc, session) {
        Ok(vector) => vector,
        Err(_) => None,
    }
}

/// The problem of the session of a reply, where it waits for an item, and the vector of the
/// session.
fn begun_by<'a, D: Disk>(office: &Office<'a, D>, alloc: Global, reply: Reply) -> FirstAnswer<'a>
    requires { IsPlacedReply office.now.plan (history office.now.marks) reply }
    ensures { IsBegunAt office.now.bank office.now.plan
        (history office.now.marks) reply result }
{
    match reply {
        Reply::At {
            session,
            place,
            fresh,
        } => match office.problem(session) {
            Some(problem) => {
                let warm = vector_for(office, alloc, session);
                FirstAnswer::Waits {
                    fresh,
                    problem,
                    warm,
                }
            }
            None => FirstAnswer::Done(Reply::At {
                session,
                place,
                fresh,
            }),
        },
        other => FirstAnswer::Done(other),
    }
}

impl<'a, D: Disk> TurnMove<Office<'a, D>> for First {
    type Answer = FirstAnswer<'a>;

    ghost needs = { λ m seen. IsSought seen m.request m.witness };

    ghost makes = { λ m before after _ begun. BeginsRequest m.request before after begun };

    fn make(&mut self, value: &mut Office<'a, D>) -> FirstAnswer<'a> {
        value.keeps();
        let reply = value.lead(self.alloc, &self.request, self.witness);
        value.keeps();
        begun_by(value, self.alloc, reply)
    }

    ghost lasts = { λ m seen rest h. sought_later m.request m.witness seen rest h };
}
