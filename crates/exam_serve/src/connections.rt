//! What is done with one connection.

ghost use Rattle.std.specs.Prelude.{◌≡◌, ◌||◌, false};
ghost use Rattle.exam_serve.specs.Connections as connection;

use exam_edge::{Disk, Gate, Link};
use exam_hall::Hall;
use exam_handler::Observer;
use exam_http::{Ended, serve_connection};
use exam_workers::Service;
use prepare_desk::PreparingCaller;
use std::alloc::Global;
use std::marker::Model;
use std::sync::Wait;
use std::sync::atomic::{AtomicU32, Ordering};

/// Whether a connection ended for lack of memory.
fn is_starved(ended: Ended) -> bool
    ensures { result ≡ connection.is_starved ended }
{
    match ended {
        Ended::Done => false,
        Ended::BadInput(_) => false,
        Ended::Link => false,
        Ended::Memory => true,
    }
}

/// Whether one of the two is so.
pub(crate) fn either(first: bool, second: bool) -> bool
    ensures { result ≡ (first || second) }
{
    first || second
}

/// What serves the connections of a door, one after another: a caller of the hall, and whether a
/// connection ended for lack of memory.
#[derive(Drop)]
pub struct Attendant<'h, 'a, D: Disk, G: Gate + Observer> {
    caller: PreparingCaller<'h, 'a, D, G>,
    starved: bool,
}

impl<'h, 'a, D: Disk, G: Gate + Observer> Model for Attendant<'h, 'a, D, G> {
    ghost use Rattle.exam_serve.specs.Connections.{AttendantKnown};

    ghost Value = { AttendantKnown };

    ghost view = { λ a. record { caller = a.caller; starved = a.starved } };
}

impl<'h, 'a, D: Disk, G: Gate + Observer> Attendant<'h, 'a, D, G> {
    /// An attendant that has served no connection.
    pub(crate) fn new(caller: PreparingCaller<'h, 'a, D, G>) -> Attendant<'h, 'a, D, G>
        ensures { result ≡ record { caller = caller.entry; starved = false } }
    {
        Attendant {
            caller,
            starved: false,
        }
    }

    /// The caller, and whether a connection ended for lack of memory.
    pub(crate) fn into_parts(self) -> (PreparingCaller<'h, 'a, D, G>, bool)
        ensures caller { result.0 ≡ self.entry.caller }
        ensures starved { result.1 ≡ self.entry.starved }
    {
        let Attendant { caller, starved } = self;
        (caller, starved)
    }
}

/// The connections of a hall: each is served by a caller, whose pass goes from one connection to
/// the next. Where there is a token, what is asked has to bear it.
#[derive(Drop)]
pub struct Connections<'h, 'a, D: Disk, G: Gate + Observer> {
    pub(crate) hall: &'h Hall<'a, D>,
    pub(crate) gate: &'h G,
    pub(crate) token: Option<&'h [u8]>,
    // How many callers serve a connection.
    pub(crate) busy: AtomicU32,
}

impl<'h, 'a, D: Disk + Send, G: Gate + Observer + Sync, K: Link> Service<K>
    for Connections<'h, 'a, D, G> {
    ghost use Rattle.std.specs.Option.{option_copied};
    ghost use Rattle.exam_serve.specs.Allowing.{IsFairLink};
    ghost use Rattle.exam_serve.specs.Connections.{IsConnection};

    type Token = Attendant<'h, 'a, D, G>;

    ghost serves = { λ service. IsConnection (option_copied service.token)
        K.tells K.left K.written K.faults K.identity };

    ghost fair = { λ service attendant. IsFairLink (option_copied service.token)
        K.tells K.left K.written K.allows attendant.caller };

    fn serve<R: Wait + Sync>(
        &self,
        rt: &R,
        alloc: Global,
        attendant: &mut Attendant<'h, 'a, D, G>,
        link: &mut K,
    ) {
        self.busy.fetch_add(1, Ordering::SeqCst);
        let caller = &mut attendant.caller;
        let ended = serve_connection(rt, alloc, caller, link, self.token, &self.busy);
        attendant.starved = either(attendant.starved, is_starved(ended));
        self.busy.fetch_sub(1, Ordering::SeqCst);
    }
}
