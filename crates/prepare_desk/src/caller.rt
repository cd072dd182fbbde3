//! One caller of a hall, with a place at its desk.

ghost use Rattle.std.specs.Prelude.{◌≡◌};
ghost use Rattle.exam_hall.specs.Known.{IsOf};
ghost use Rattle.prepare_desk.specs.Posts.{IsPostOf};

use crate::key::Key;
use crate::post::Post;
use exam_edge::{Disk, Gate};
use exam_hall::Hall;
use exam_handler::{Handler, Health, Observer};
use exam_office::{Office, Place, Refusal, Reply, Request};
use std::alloc::Global;
use std::marker::Model;
use std::sync::Wait;
use turn_lock::Pass;

/// A caller of a hall: it answers requests with a pass of its own. By its type the pass is of the
/// hall, and the place is at a desk of the hall. Its gate is also the observer, which is told how
/// the examination is after each response. Where it prepares, it then assembles the next forms of
/// the session of its last reply, if an item of that waits for its answer, and nothing is ready for
/// the first response to it.
#[derive(Drop)]
pub struct PreparingCaller<'h, 'a, D: Disk, G: Gate + Observer> {
    hall: &'h Hall<'a, D>,
    gate: &'h G,
    pass: Pass<Office<'a, D>>,
    post: Post<'h, 'a>,
    prepares: bool,
    awaits: Option<Key>,
}

impl<'h, 'a, D: Disk, G: Gate + Observer> Model for PreparingCaller<'h, 'a, D, G> {
    ghost use Rattle.exam_hall.specs.Known.{CallerKnown, IsOf};
    ghost use Rattle.prepare_desk.specs.Posts.{IsPostOf};

    ghost Value = { CallerKnown };

    ghost view = { λ c. record { hall = c.hall.now; pass = c.pass } };

    ghost invariant = { λ c. IsOf c.pass c.hall.now × IsPostOf c.hall.now c.post };
}

/// The first response to the item of a reply, if that item waits for its answer.
fn awaiting(reply: &Reply) -> Option<Key> {
    match reply {
        Reply::At {
            session,
            place: Place::Waiting { step, .. },
            ..
        } => Some(Key {
            session: *session,
            step: *step,
            response: 0,
        }),
        _ => None,
    }
}

impl<'h, 'a, D: Disk, G: Gate + Observer> PreparingCaller<'h, 'a, D, G> {
    /// A caller with this pass and this place at the desk.
    // Promise: A caller is its hall and its pass, and gives the pass back
    // - of `PreparingCaller::new`, `PreparingCaller::into_pass`
    // - by `pass`, `of`
    pub fn new(
        hall: &'h Hall<'a, D>,
        gate: &'h G,
        pass: Pass<Office<'a, D>>,
        post: Post<'h, 'a>,
        prepares: bool,
    ) -> PreparingCaller<'h, 'a, D, G>
        requires of { IsOf pass hall.now }
        requires post { IsPostOf hall.now post }
        ensures { result ≡ record { hall = hall.now; pass = pass.entry } }
    {
        PreparingCaller {
            hall,
            gate,
            pass,
            post,
            prepares,
            awaits: None,
        }
    }

    /// Gives the pass back.
    pub fn into_pass(self) -> Pass<Office<'a, D>>
        ensures pass { result ≡ self.entry.pass }
        ensures of { IsOf result self.entry.hall }
    {
        let PreparingCaller {
            hall: _,
            gate: _,
            pass,
            post: _,
            prepares: _,
            awaits: _,
        } = self;
        pass
    }
}

impl<'h, 'a, D: Disk, G: Gate + Observer> Handler for PreparingCaller<'h, 'a, D, G> {
    ghost use Rattle.std.specs.Prelude.{◌≡◌, refl};
    ghost use Rattle.std.proofs.Common.{inl};
    ghost use Rattle.exam_hall.specs.Known.{HasGrown, marked};
    ghost use Rattle.exam_hall.specs.Probes.{Probes};
    ghost use Rattle.exam_hall.specs.Sees.{Sees};
    ghost use Rattle.prepare_desk.specs.Posts.{Idles};

    ghost does = { λ old request reply new.
        Sees old.hall (marked old.pass) (marked new.pass) request reply × (new.hall ≡ old.hall)
        × HasGrown old.pass new.pass };

    ghost probes = { λ old result new.
        Probes old.hall (marked old.pass) (marked new.pass) result × (new.hall ≡ old.hall)
        × HasGrown old.pass new.pass };

    ghost idles = { Idles };

    ghost stays = { λ handler. inl refl };

    fn handle<R: Wait + Sync>(&mut self, rt: &R, alloc: Global, request: &Request) -> Reply {
        let reply = if self.prepares {
            self.post
                .handle(rt, alloc, self.hall, self.gate, &mut self.pass, request)
        } else {
            self.hall
                .handle(rt, alloc, self.gate, &mut self.pass, request)
        };
        self.awaits = awaiting(&reply);
        reply
    }

    fn probe<R: Wait + Sync>(&mut self, rt: &R) -> Result<Health, Refusal> {
        self.hall.probe(rt, &mut self.pass)
    }

    /// Tells the observer how the examination is, in one turn. Then it prepares, where it does.
    fn idle<R: Wait + Sync>(&mut self, rt: &R, alloc: Global) {
        let health = self.hall.health(rt, &mut self.pass);
        self.gate.see(&health);
        if let Some(first) = self.awaits {
            if self.prepares && !self.post.has(rt, first) {
                let session = first.session;
                // Without memory fewer forms are ready, and nothing else changes.
                let _ = self
                    .post
                    .prepare(rt, alloc, self.hall, self.gate, &mut self.pass, session);
            }
        }
    }
}
