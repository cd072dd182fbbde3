//! Why a request isn't done.

ghost use Rattle.std.specs.Prelude.{◌≡◌};
ghost use Rattle.history_model.specs.declared.refusal.Refusal.TheVariants.{Memory as RefusedMemory};

use crate::place::Place;
use std::alloc::AllocError;

/// Why a request isn't done, or not to its end.
#[derive(Clone, Copy, Debug, PartialEq, Eq)]
pub enum Refusal {
    /// There is no such session; the number of sessions.
    NoSession(u32),
    /// The session is of another booking than the one that the request names.
    OtherBooking,
    /// The session doesn't wait for an answer at this step; the step at which it is.
    WrongStep(u16),
    /// The step was answered with another response; that response.
    Other(u8),
    /// The response isn't in the item's range; its number of categories.
    BadResponse(u8),
    /// The session has ended; its place.
    IsClosed(Place),
    /// The session doesn't wait for the item that was assembled; its place, and whether eligibility
    /// is set aside in the band of its estimate.
    Stale(Place, bool),
    /// The booking has a session that was not started with this list of items; that session.
    OtherList(u32),
    /// The list of items that the examinee must not get has none, or one that the bank hasn't; the
    /// number of items of the bank.
    NoItem(u16),
    /// No more sessions are allowed; their number.
    SessionsFull(u32),
    /// No set of items is a form of the plan without the items of the list.
    NoForm,
    /// No form of the plan without the items of the list was found within the plan's node budget
    /// for a base form.
    NoneFound,
    /// The journal would be longer than its limit; the length that it would have, in bytes.
    JournalFull(u64),
    /// A call of the disk failed, and the disk has counted that. One entry is in doubt.
    Disk,
    /// Out of memory.
    Memory,
}

impl From<AllocError> for Refusal {
    ghost from_gives = { λ _ r. r ≡ RefusedMemory };

    fn from(_e: AllocError) -> Refusal {
        Refusal::Memory
    }
}
