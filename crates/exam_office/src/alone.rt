//! The office of one thread.

ghost use Rattle.std.specs.Prelude.{◌≡◌};
ghost use Rattle.exam_office.specs.Asking.{IsAsked};
ghost use Rattle.exam_handler.specs.Handling.{IsReply};

use crate::office::Office;
use exam_edge::Disk;
use exam_handler::{Handler, Health};
use history_model::{Refusal, Reply, Request};
use std::alloc::Global;
use std::sync::Wait;

/// The office of one thread. It answers each request to its end: an item that a session waits for
/// is assembled and served before the reply.
pub struct Alone<'a, D: Disk> {
    pub office: Office<'a, D>,
}

impl<'a, D: Disk> Alone<'a, D> {
    /// Does what a request asks, and waits for nobody. The entry in doubt is resolved first, if
    /// there is one. A reply that isn't `JournalFull`, `Disk` or `Memory` is given only after all
    /// entries of the request are on the disk.
    // Promise: Where nothing is in doubt, or the entry in doubt is resolved, a request that the
    // rules refuse is answered by that refusal: it never halts
    // - by `Halts` (`not_refused`)
    // Promise: A request is answered out of memory only with nothing in doubt, or where the list of
    // marks was full and nothing was done: to resolve the entry in doubt takes no memory
    // - by `mended` (`IsAsked`, `IsMendedOrFull`)
    // Promise: The reply of a request that is done comes after its entries are durable: each file
    // that a crash may leave represents the whole history
    // - by `IsDurable`
    // Promise: At every moment of a request each file that a crash may leave represents the history
    // before, or that with the entry in doubt, with a beginning of the request's entries
    // - by `Steps`, `IsOnTheWay`
    // Promise: Eligibility is set aside with the budget spent only if neither the base nor the form
    // before is a form. Each form served from is no worse than the base and the form before. Before
    // the first item the form before is that of the session's list, if it has one
    // - by `AreGood`, `IsGoodAside`, `IsGoodServing`
    // Promise: No reply is Pending or Stale, and the place of `IsClosed` is an end
    // - by `IsSettledReply`, `reply`
    pub fn ask(&mut self, alloc: Global, request: &Request) -> Reply
        // Promise: A request on an office of one thread is done by the rules, or it halts after a
        // beginning of its entries. It goes on from the office's history, or from that with the
        // entry in doubt. It halts out of memory, where the disk's count of faults rose, or where
        // the next entry would make the journal longer than its limit. In the last case the reply
        // has that length
        // - by `asked` (`IsAsked`, `Becomes`, `Halts`)
        ensures asked { IsAsked self.old.office request.now result self.new.office }
        ensures reply { IsReply result }
    {
        match self.office.settle() {
            Ok(()) => self.office.ask_surely(alloc, request),
            Err(refusal) => Reply::Refused(refusal),
        }
    }
}

impl<'a, D: Disk> Handler for Alone<'a, D> {
    ghost use Rattle.std.specs.Prelude.{◌≡◌, refl};
    ghost use Rattle.exam_office.specs.Asking.{IsAsked};
    ghost use Rattle.exam_office.specs.Health.{IsProbed};

    ghost does = { λ old request reply new. IsAsked old.office request reply new.office };

    ghost probes = { λ old result new. IsProbed old.office result new.office };

    ghost idles = { λ old new. new ≡ old };

    ghost stays = { λ handler. refl };

    fn handle<R: Wait + Sync>(&mut self, _rt: &R, alloc: Global, request: &Request) -> Reply {
        self.ask(alloc, request)
    }

    fn probe<R: Wait + Sync>(&mut self, _rt: &R) -> Result<Health, Refusal> {
        self.office.probe()
    }
}
