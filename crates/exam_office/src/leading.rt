//! What a request does first: its first entry.

ghost use Rattle.std.specs.Prelude.{◌≡◌, true, IfOk};
ghost use Rattle.history_model.specs.Entries.{is_started};
ghost use Rattle.exam_office.specs.Asking.{reply_of};
ghost use Rattle.exam_office.specs.Leading.{IsBegunReply, IsLead, IsWitnessFor};
ghost use Rattle.exam_office.specs.Marks.{history};

use crate::begun::Begun;
use crate::office::Office;
use bank_tables::ItemSet;
use exam_edge::Disk;
use history_model::{Place, Refusal, Reply, Request};
use std::alloc::Global;

/// The reply of a place or a refusal.
pub(crate) fn replied(session: u32, fresh: bool, found: Result<Place, Refusal>) -> Reply
    ensures { result ≡ reply_of session fresh found }
{
    match found {
        Ok(place) => Reply::At {
            session,
            place,
            fresh,
        },
        Err(refusal) => Reply::Refused(refusal),
    }
}

impl<'a, D: Disk> Office<'a, D> {
    /// The reply of a session that was begun: its place.
    fn begun_reply(&self, begun: Result<Begun, Refusal>) -> Reply
        requires { IfOk begun
            (λ b. is_started (history self.now.marks) b.session ≡ true) }
        ensures { IsBegunReply self.now.plan (history self.now.marks) begun result }
    {
        match begun {
            Ok(begun) => match self.look(begun.session) {
                Ok(place) => Reply::At {
                    session: begun.session,
                    place,
                    fresh: begun.fresh,
                },
                Err(_) => unreachable!(),
            },
            Err(refusal) => Reply::Refused(refusal),
        }
    }

    /// Does what a request does first: adds its first entry, where that is not there yet. The reply
    /// may be that its session waits for an item, which is not served here. `witness` is what a
    /// search for a form without the items of the request's list found (`seek_witness`); a request
    /// without a list doesn't read it. A look and a request for the counts leave an entry in doubt
    /// as it is; the other requests resolve it first.
    ///
    /// Refused as the request's own call is: `begin`, `begin_without`, `answer`, `close`, `look` or
    /// `exposure`.
    pub fn lead(
        &mut self,
        alloc: Global,
        request: &Request,
        witness: Result<ItemSet, Refusal>,
    ) -> Reply
        requires { IsWitnessFor self.old.bank self.old.plan request.now witness }
        // Promise: What a request does first is by the clauses of its own call: its first entry is
        // added where it is not there yet. The reply has the place of its session, the exposure
        // counts, or the refusal of that call
        // - by the clause (`IsLead`)
        ensures { IsLead request.now witness self.old self.new result }
    {
        match request {
            Request::Begin(booking) => {
                let begun = self.begin(alloc, *booking);
                self.begun_reply(begun)
            }
            Request::BeginWithout { booking, items } => {
                let begun = self.begin_without(alloc, *booking, items, witness);
                self.begun_reply(begun)
            }
            Request::Answer {
                session,
                step,
                response,
                booking,
            } => {
                let found = self.answer(alloc, *session, *step, *response, *booking);
                replied(*session, false, found)
            }
            Request::Close { session, booking } => {
                let found = self.close(alloc, *session, *booking);
                replied(*session, false, found)
            }
            Request::Look(session) => replied(*session, false, self.look(*session)),
            Request::Exposure => match self.exposure(alloc) {
                Ok(exposure) => Reply::Exposure(exposure),
                Err(refusal) => Reply::Refused(refusal),
            },
        }
    }
}
