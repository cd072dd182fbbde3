//! Who answers requests.
ghost use Rattle.std.specs.Prelude.{IfErr};
ghost use Rattle.exam_handler.specs.Handling.{IsProbeRefusal, IsReply};

use crate::Health;
use history_model::{Refusal, Reply, Request};
use std::alloc::Global;
use std::sync::Wait;

/// Who answers requests, one after another.
pub trait Handler {
    ghost use Rattle.std.specs.Prelude.{Result};
    ghost use Rattle.exam_handler.specs.declared.health.Health.{Health};
    ghost use Rattle.history_model.specs.declared.refusal.Refusal.{Refusal};
    ghost use Rattle.history_model.specs.declared.request.Request.{Request};
    ghost use Rattle.history_model.specs.declared.request.Reply.{Reply};

    /// What a request does: the handler before it, the request, its reply, and the handler after
    /// it.
    ghost does: { Self → Request → Reply → Self → Type 0 };

    /// What a look at the health does: the handler before it, what it finds, and the handler after
    /// it.
    ghost probes: { Self → Result Health Refusal → Self → Type 0 };

    /// What idle time does: the handler before and after it.
    ghost idles: { Self → Self → Type 0 };

    /// Answers a request.
    fn handle<R: Wait + Sync>(&mut self, rt: &R, alloc: Global, request: &Request) -> Reply
        // Promise: A request does what the handler states in `does`; idle time changes the handler
        // only as it states in `idles`
        // - of `Handler::handle`, `Handler::idle`
        ensures does { does self.old request.now result self.new }
        // Promise: No reply is Stale, and the place of `IsClosed` is an end
        // - by `reply` (`IsReply`)
        ensures reply { IsReply result };

    /// Answers how the examination is, with no entry in doubt: if one is, it is resolved first, as
    /// before a request. Refused where the disk failed, or memory ran out.
    fn probe<R: Wait + Sync>(&mut self, rt: &R) -> Result<Health, Refusal>
        // Promise: A look at the health does what the handler states in `probes`. It is refused for
        // the disk or for lack of memory alone
        // - by `probes`, `refusal` (`IsProbeRefusal`)
        ensures probes { probes self.old result self.new }
        ensures refusal { IfErr result IsProbeRefusal };

    /// Uses the time until the next request. It does nothing unless the handler has work for it.
    fn idle<R: Wait + Sync>(&mut self, _rt: &R, _alloc: Global)
        ensures { idles self.old self.new }
    {}

    /// Idle time may pass with nothing done.
    ghost stays: { (handler : Self) → idles handler handler };
}
