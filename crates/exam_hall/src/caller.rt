//! One caller of a hall.

ghost use Rattle.std.specs.Prelude.{◌≡◌};
ghost use Rattle.exam_hall.specs.Known.{IsOf};

use crate::hall::Hall;
use exam_edge::{Disk, Gate};
use exam_handler::{Handler, Health, Observer};
use exam_office::{Office, Refusal, Reply, Request};
use std::alloc::Global;
use std::marker::Model;
use std::sync::Wait;
use turn_lock::Pass;

/// A caller of a hall: it answers requests with a pass of its own. By its type the pass is of the
/// hall. Its gate is also the observer, which is told how the examination is after each response.
#[derive(Drop)]
pub struct Caller<'h, 'a, D: Disk, G: Gate + Observer> {
    hall: &'h Hall<'a, D>,
    gate: &'h G,
    pass: Pass<Office<'a, D>>,
}

impl<'h, 'a, D: Disk, G: Gate + Observer> Model for Caller<'h, 'a, D, G> {
    ghost use Rattle.exam_hall.specs.Known.{CallerKnown, IsOf};

    ghost Value = { CallerKnown };

    ghost view = { λ c. record { hall = c.hall.now; pass = c.pass } };

    ghost invariant = { λ c. IsOf c.pass c.hall.now };
}

impl<'h, 'a, D: Disk, G: Gate + Observer> Caller<'h, 'a, D, G> {
    /// A caller with this pass.
    // Promise: A caller is its hall and its pass, and gives the pass back; the hall stays the same
    // - of `Caller::new`, `Caller::into_pass`
    // - by `pass`
    pub fn new(
        hall: &'h Hall<'a, D>,
        gate: &'h G,
        pass: Pass<Office<'a, D>>,
    ) -> Caller<'h, 'a, D, G>
        requires { IsOf pass hall.now }
        ensures { result ≡ record { hall = hall.now; pass = pass.entry } }
    {
        Caller { hall, gate, pass }
    }

    /// Gives the pass back.
    pub fn into_pass(self) -> Pass<Office<'a, D>>
        ensures pass { result ≡ self.entry.pass }
        ensures of { IsOf result self.entry.hall }
    {
        let Caller {
            hall: _,
            gate: _,
            pass,
        } = self;
        pass
    }
}

impl<'h, 'a, D: Disk, G: Gate + Observer> Handler for Caller<'h, 'a, D, G> {
    ghost use Rattle.std.specs.Prelude.{◌≡◌, refl};
    ghost use Rattle.std.proofs.Common.{inl};
    ghost use Rattle.exam_hall.specs.Known.{HasGrown, marked};
    ghost use Rattle.exam_hall.specs.Probes.{Probes, Idles};
    ghost use Rattle.exam_hall.specs.Sees.{Sees};

    ghost does = { λ old request reply new.
        Sees old.hall (marked old.pass) (marked new.pass) request reply × (new.hall ≡ old.hall)
        × HasGrown old.pass new.pass };

    ghost probes = { λ old result new.
        Probes old.hall (marked old.pass) (marked new.pass) result × (new.hall ≡ old.hall)
        × HasGrown old.pass new.pass };

    ghost idles = { Idles };

    ghost stays = { λ handler. inl refl };

    fn handle<R: Wait + Sync>(&mut self, rt: &R, alloc: Global, request: &Request) -> Reply {
        self.hall
            .handle(rt, alloc, self.gate, &mut self.pass, request)
    }

    fn probe<R: Wait + Sync>(&mut self, rt: &R) -> Result<Health, Refusal> {
        self.hall.probe(rt, &mut self.pass)
    }

    /// Tells the observer how the examination is. It takes one turn.
    fn idle<R: Wait + Sync>(&mut self, rt: &R, _alloc: Global) {
        let health = self.hall.health(rt, &mut self.pass);
        self.gate.see(&health);
    }
}
