//! One request of an office with nothing in doubt.

ghost use Rattle.exam_office.specs.Asking.{IsDurable, IsAskedSurely};
ghost use Rattle.exam_office.specs.Leading.{IsWitnessFor};

use crate::leading::replied;
use crate::office::Office;
use crate::witness::seek_witness;
use bank_tables::ItemSet;
use exam_edge::Disk;
use history_model::{Place, Refusal, Reply, Request};
use std::alloc::Global;

impl<'a, D: Disk> Office<'a, D> {
    /// What a search for a form without the items of the request's list finds, for the office's
    /// bank and plan. Without a list it is the base.
    fn witness_for(&self, alloc: Global, request: &Request) -> Result<ItemSet, Refusal>
        ensures { IsWitnessFor self.now.bank self.now.plan request.now result }
    {
        let _ = self.book.entries();
        match request {
            Request::BeginWithout { items, .. } => {
                seek_witness(alloc, self.bank, self.spec, &self.base, items)
            }
            _ => Ok(self.base),
        }
    }

    /// Does what a request asks: its first entry, and then the item of a session that waits for
    /// one.
    pub(crate) fn ask_surely(&mut self, alloc: Global, request: &Request) -> Reply
        requires { IsDurable self.old.bank self.old.plan self.old }
        ensures { IsAskedSurely self.old request.now result self.new }
    {
        let witness = self.witness_for(alloc, request);
        let first = self.lead(alloc, request, witness);
        match first {
            Reply::At {
                session,
                place,
                fresh,
            } => match place {
                Place::Pending(_) => {
                    let found = self.serve_pending(alloc, session);
                    replied(session, fresh, found)
                }
                _ => Reply::At {
                    session,
                    place,
                    fresh,
                },
            },
            other => other,
        }
    }
}
