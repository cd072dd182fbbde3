//! What is asked of an examination, and what is answered.

use crate::counts::Counts;
use crate::place::Place;
use crate::refusal::Refusal;
use bank_tables::{ItemSet, List};

/// What one request asks.
#[derive(Clone, Copy, Debug, PartialEq, Eq)]
pub enum Request {
    /// A session for a booking.
    Begin(u64),
    /// A session for a booking whose examinee must not get the items of a list, as those of earlier
    /// sittings. A list with no items is none: no session starts with it.
    BeginWithout {
        booking: u64,
        items: ItemSet,
    },
    /// The response to the item of a step.
    Answer {
        session: u32,
        step: u16,
        response: u8,
        /// The booking that the session must have, if it is named.
        booking: Option<u64>,
    },
    /// A session is closed before its end.
    Close {
        session: u32,
        /// The booking that the session must have, if it is named.
        booking: Option<u64>,
    },
    /// The place of a session.
    Look(u32),
    /// The exposure counts.
    Exposure,
}

/// The number of finished sessions, and the exposure counts of the items of the bank, in order.
#[derive(Debug, Drop)]
pub struct Exposure {
    pub finished: u32,
    pub rows: List<Counts>,
}

/// The answer to a request.
#[derive(Debug, Drop)]
pub enum Reply {
    /// The place of the session of the request, and whether this request started it.
    At {
        session: u32,
        place: Place,
        fresh: bool,
    },
    /// The exposure counts.
    Exposure(Exposure),
    /// Why the request wasn't done.
    Refused(Refusal),
}
