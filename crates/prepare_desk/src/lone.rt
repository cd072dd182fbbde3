//! A desk that one caller has for itself.

ghost use Rattle.std.specs.Prelude.{◌≡◌, IfSome};
ghost use Rattle.exam_hall.specs.Known.{HasGrown, IsOf, marked};
ghost use Rattle.exam_hall.specs.Sees.{Sees};
ghost use Rattle.exam_hall.specs.Used.{Uses};
ghost use Rattle.exam_handler.specs.Handling.{IsReply};
ghost use Rattle.prepare_desk.specs.Desks.{left_for, purpose_of, ready_for};
ghost use Rattle.prepare_desk.specs.Posts.{IsIdle};
ghost use Rattle.prepare_desk.specs.Preparing.{AddsFor, IsAfterOne};

use crate::desk::Desk;
use crate::key::Key;
use crate::next::{Before, Next, RESPONSES, next_after};
use exam_edge::{Disk, Gate, Memory};
use exam_hall::Hall;
use exam_office::{Office, Reply, Request};
use std::alloc::Global;
use std::sync::Wait;
use turn_lock::Pass;

impl<'a> Desk<'a> {
    /// Answers a request as the hall does, with the result for it, if it is an answer and one is
    /// ready. That result is taken out. If it has a form, an item that is served at the next step
    /// is the one of that form, unless another caller set eligibility aside for the session
    /// meanwhile.
    pub fn handle<D: Disk, G: Gate, R: Wait>(
        &mut self,
        rt: &R,
        alloc: Global,
        hall: &Hall<'a, D>,
        gate: &G,
        pass: &mut Pass<Office<'a, D>>,
        request: &Request,
    ) -> Reply
        requires of { IsOf pass.old hall.now }
        requires purpose { self.old.purpose ≡ purpose_of hall.now }
        // Promise: With a desk of its own a caller's request keeps these promises too. If that desk
        // has a form for the answer, an item that is served at the next step is the one of that
        // form, unless another caller set eligibility aside for the session meanwhile
        // - by `sees` (`Sees`), `used` (`Uses`, `ready_for`), `reply`, `of`, `grown`
        ensures sees { Sees hall.now (marked pass.old) (marked pass.new) request.now result }
        ensures used { IfSome (ready_for self.old.results request.now)
            (Uses hall.now (marked pass.old) (marked pass.new) request.now) }
        ensures of { IsOf pass.new hall.now }
        ensures grown { HasGrown pass.old pass.new }
        ensures reply { IsReply result }
        // Promise: A request takes what is ready for it off such a desk, and nothing else
        // - by `left` (`left_for`)
        ensures left { self.new ≡ record self.old {
          results = left_for self.old.results request.now;
        } }
    {
        match request {
            Request::Answer {
                session,
                step,
                response,
                booking: _,
            } => {
                let key = Key {
                    session: *session,
                    step: *step,
                    response: *response,
                };
                let ready = self.take(key);
                hall.handle_prepared(rt, alloc, gate, pass, request, ready)
            }
            _ => hall.handle(rt, alloc, gate, pass, request),
        }
    }

    /// Prepares the forms of a session's next step, as `Post::prepare` does. All that it puts on
    /// the desk is for answers in that session.
    pub fn prepare<D: Disk, G: Gate, R: Wait>(
        &mut self,
        rt: &R,
        alloc: Global,
        hall: &Hall<'a, D>,
        gate: &G,
        pass: &mut Pass<Office<'a, D>>,
        session: u32,
    ) -> Result<u32, Memory>
        requires of { IsOf pass.old hall.now }
        requires purpose { self.old.purpose ≡ purpose_of hall.now }
        ensures idles { IsIdle (marked pass.old) (marked pass.new) }
        ensures of { IsOf pass.new hall.now }
        ensures grown { HasGrown pass.old pass.new }
        ensures purpose { self.new.purpose ≡ self.old.purpose }
        // Promise: All that is put on such a desk while forms are prepared is for answers in that
        // session
        // - by `adds` (`AddsFor`)
        ensures adds { AddsFor session self.old.results self.new.results }
    {
        let mut before: Option<Before<'a>> = None;
        'responses: for response in 0..RESPONSES {
            match self.prepare_one(rt, alloc, hall, gate, pass, session, response, &before) {
                Ok(Some(now)) => before = Some(now),
                Ok(None) => return Ok(response as u32),
                Err(memory) => return Err(memory),
            }
        }
        Ok(RESPONSES as u32)
    }

    /// Prepares the form of one response, and gives its problem; none if no step follows.
    fn prepare_one<D: Disk, G: Gate, R: Wait>(
        &mut self,
        rt: &R,
        alloc: Global,
        hall: &Hall<'a, D>,
        gate: &G,
        pass: &mut Pass<Office<'a, D>>,
        session: u32,
        response: u8,
        before: &Option<Before<'a>>,
    ) -> Result<Option<Before<'a>>, Memory>
        requires of { IsOf pass.old hall.now }
        requires purpose { self.old.purpose ≡ purpose_of hall.now }
        ensures idles { IsIdle (marked pass.old) (marked pass.new) }
        ensures of { IsOf pass.new hall.now }
        ensures grown { HasGrown pass.old pass.new }
        ensures after { IsAfterOne session response before.now self.old self.new result }
    {
        match next_after(rt, alloc, hall, gate, pass, session, response, before) {
            Ok(Some(Next { key, ready, before })) => match self.put(key, ready) {
                Ok(()) => Ok(Some(before)),
                Err(memory) => Err(memory),
            },
            Ok(None) => Ok(None),
            Err(memory) => Err(memory),
        }
    }
}
