//! What one caller has of a shared desk.

ghost use Rattle.std.specs.Prelude.{◌≡◌, ◌+◌, ◌<◌, [], ◌∷◌, IfOk, IfSome};
ghost use Rattle.turn_lock.specs.Passes.{Known};
ghost use Rattle.exam_hall.specs.Known.{HasGrown, IsOf, marked};
ghost use Rattle.exam_hall.specs.Prepared.{IsPrepared};
ghost use Rattle.exam_hall.specs.Sees.{Sees};
ghost use Rattle.exam_handler.specs.Handling.{IsReply};
ghost use Rattle.prepare_desk.specs.Desks.{DeskPurpose, IsReadyFor};
ghost use Rattle.prepare_desk.specs.Posts.{IsFirstOf, IsIdle, IsPostOf};

use crate::desk::{Desk, Ready};
use crate::key::Key;
use crate::moves::{LookUp, PutUp, TakeOut};
use crate::next::{Before, Next, RESPONSES, next_after};
use bank_tables::{Bank, ItemSet};
use branch_bound::Assembled;
use constraint_model::Spec;
use exam_edge::{Disk, Gate, Memory};
use exam_hall::Hall;
use exam_office::{Office, Reply, Request};
use std::alloc::Global;
use std::marker::Model;
use std::sync::Wait;
use turn_lock::{Pass, Turn};

/// A desk that callers share, for a bank, a plan and a base form, with room for so many results,
/// and its first pass.
pub fn shared<'a>(
    alloc: Global,
    bank: &'a Bank,
    spec: &'a Spec,
    base: ItemSet,
    room: u32,
) -> Result<(Turn<Desk<'a>>, Pass<Desk<'a>>), Memory>
    // Promise: The first pass of a shared desk has seen what the desk is for, and was not split
    // - by `first` (`IsFirstOf`), `splits`
    ensures first { IfOk result (λ r. IsFirstOf r.0
        (record { bank = bank.now; plan = spec.now; base = base }) r.1) }
    ensures splits { IfOk result (λ r. r.1.splits ≡ 0) }
{
    match Desk::new(alloc, bank, spec, base, room) {
        Ok(desk) => match Turn::new(alloc, desk) {
            Ok(made) => Ok(made),
            Err(_) => Err(Memory),
        },
        Err(memory) => Err(memory),
    }
}

/// A place at a shared desk, with a pass of its lock. Contracts see the pass.
#[derive(Drop)]
pub struct Post<'h, 'a> {
    desk: &'h Turn<Desk<'a>>,
    pass: Pass<Desk<'a>>,
}

impl<'h, 'a> Model for Post<'h, 'a> {
    ghost use Rattle.std.specs.Prelude.{◌≡◌};
    ghost use Rattle.turn_lock.specs.Passes.{Known};
    ghost use Rattle.prepare_desk.specs.Desks.{DeskPurpose};

    ghost Value = { Known DeskPurpose };

    ghost view = { λ p. p.pass };

    ghost invariant = { λ p. p.pass.turn ≡ p.desk.now };
}

impl<'h, 'a> Post<'h, 'a> {
    /// A place at a desk, with a pass that is split from the first one, at most 65,535 times.
    pub fn new(desk: &'h Turn<Desk<'a>>, first: &mut Pass<Desk<'a>>) -> Post<'h, 'a>
        requires of { first.old.turn ≡ desk.now }
        requires first { (first.old.number ≡ 0) × (first.old.splits < 65535) }
        ensures first { first.new ≡ record first.old { splits = first.old.splits + 1 } }
        // Promise: A place at a desk has a pass of its own, which has seen as much as the first
        // one. That one was split once more
        // - by `seen`, `first`
        ensures seen { result.seen ≡ first.old.seen }
    {
        let pass = desk.split(first);
        Post { desk, pass }
    }

    /// Whether something is on the desk for an answer. It waits for a turn at the desk.
    pub fn has<R: Wait>(&mut self, rt: &R, key: Key) -> bool
        // Promise: Looking at a shared desk leaves what it is for
        ensures { (p : DeskPurpose) → self.old.seen ≡ p ∷ [] → self.new.seen ≡ p ∷ [] }
    {
        self.desk.turn(rt, &mut self.pass, &mut LookUp { key })
    }

    /// Takes out what is ready for an answer. It waits for a turn at the desk.
    fn take<R: Wait>(&mut self, rt: &R, key: Key) -> Option<Assembled<'a>>
        ensures { (p : DeskPurpose) → self.old.seen ≡ p ∷ []
            → (self.new.seen ≡ p ∷ []) × IfSome result (IsPrepared p.bank p.plan p.base) }
    {
        self.desk.turn(rt, &mut self.pass, &mut TakeOut { key })
    }

    /// Puts what is ready for an answer. It waits for a turn at the desk. `Memory` is lack of
    /// memory.
    fn put<R: Wait>(&mut self, rt: &R, key: Key, ready: Ready<'a>) -> Result<(), Memory>
        requires { (p : DeskPurpose) × (self.old.seen ≡ p ∷ []) × IsReadyFor p ready }
        ensures { (p : DeskPurpose) → self.old.seen ≡ p ∷ [] → self.new.seen ≡ p ∷ [] }
    {
        let mut step = PutUp {
            key,
            ready: Some(ready),
        };
        self.desk.turn(rt, &mut self.pass, &mut step)
    }

    /// Answers a request as the hall does, with the result for it, if it is an answer and one is
    /// ready: then its form needs no assembly.
    pub fn handle<D: Disk, G: Gate, R: Wait>(
        &mut self,
        rt: &R,
        alloc: Global,
        hall: &Hall<'a, D>,
        gate: &G,
        pass: &mut Pass<Office<'a, D>>,
        request: &Request,
    ) -> Reply
        requires of { IsOf pass.old hall.now }
        // Promise: A place at a desk stays one for the bank, the plan and the base form of the hall
        // - of `Post::handle`, `Post::prepare`
        // - by `post` (`IsPostOf`)
        requires post { IsPostOf hall.now self.old }
        // Promise: A request keeps each promise of `Hall::handle`, whatever is on the desk
        // - by `sees` (`Sees`), `reply`, `of`, `grown`
        ensures sees { Sees hall.now (marked pass.old) (marked pass.new) request.now result }
        ensures of { IsOf pass.new hall.now }
        ensures grown { HasGrown pass.old pass.new }
        ensures reply { IsReply result }
        ensures post { IsPostOf hall.now self.new }
    {
        match request {
            Request::Answer {
                session,
                step,
                response,
                booking: _,
            } => {
                let key = Key {
                    session: *session,
                    step: *step,
                    response: *response,
                };
                let ready = self.take(rt, key);
                hall.handle_prepared(rt, alloc, gate, pass, request, ready)
            }
            _ => hall.handle(rt, alloc, gate, pass, request),
        }
    }

    /// Prepares the forms of a session's next step, one for each response to its item, the lowest
    /// first, and gives their number: 0 if no step follows an answer. It ends if the session is
    /// answered meanwhile, since whoever answers prepares too. The gate is passed before and after
    /// each assembly. A problem that is that of the response before is assembled once.
    /// `Memory` is lack of memory: what was prepared before that stays.
    pub fn prepare<D: Disk, G: Gate, R: Wait>(
        &mut self,
        rt: &R,
        alloc: Global,
        hall: &Hall<'a, D>,
        gate: &G,
        pass: &mut Pass<Office<'a, D>>,
        session: u32,
    ) -> Result<u32, Memory>
        requires of { IsOf pass.old hall.now }
        requires post { IsPostOf hall.now self.old }
        // Promise: Preparing takes turns of the hall that add nothing, or none
        // - of `Post::prepare`, `Desk::prepare`
        // - by `idles` (`IsIdle`, `Went`), `of`, `grown`, `purpose`
        ensures idles { IsIdle (marked pass.old) (marked pass.new) }
        ensures of { IsOf pass.new hall.now }
        ensures grown { HasGrown pass.old pass.new }
        ensures post { IsPostOf hall.now self.new }
    {
        let mut before: Option<Before<'a>> = None;
        'responses: for response in 0..RESPONSES {
            match self.prepare_one(rt, alloc, hall, gate, pass, session, response, &before) {
                Ok(Some(now)) => before = Some(now),
                Ok(None) => return Ok(response as u32),
                Err(memory) => return Err(memory),
            }
        }
        Ok(RESPONSES as u32)
    }

    /// Prepares the form of one response, and gives its problem; none if no step follows.
    fn prepare_one<D: Disk, G: Gate, R: Wait>(
        &mut self,
        rt: &R,
        alloc: Global,
        hall: &Hall<'a, D>,
        gate: &G,
        pass: &mut Pass<Office<'a, D>>,
        session: u32,
        response: u8,
        before: &Option<Before<'a>>,
    ) -> Result<Option<Before<'a>>, Memory>
        requires of { IsOf pass.old hall.now }
        requires post { IsPostOf hall.now self.old }
        ensures idles { IsIdle (marked pass.old) (marked pass.new) }
        ensures of { IsOf pass.new hall.now }
        ensures grown { HasGrown pass.old pass.new }
        ensures post { IsPostOf hall.now self.new }
    {
        match next_after(rt, alloc, hall, gate, pass, session, response, before) {
            Ok(Some(Next { key, ready, before })) => match self.put(rt, key, ready) {
                Ok(()) => Ok(Some(before)),
                Err(memory) => Err(memory),
            },
            Ok(None) => Ok(None),
            Err(memory) => Err(memory),
        }
    }
}
