//! The seat of an examinee.

use bank_tables::{ItemSet, Short};

/// What a session holds so far.
#[derive(Clone, Copy, Debug, PartialEq, Eq)]
pub struct Seat {
    /// The items shown, in order.
    pub shown: Short,
    /// The responses to them, in order.
    pub responses: Short,
    /// The items eligible for the session in each band; none in a band that the plan hasn't.
    pub eligible: [ItemSet; 8],
    /// Whether eligibility was set aside in each band; not in a band that the plan hasn't.
    pub aside: [bool; 8],
    /// The items that the examinee must not get, if there is a list of them.
    pub without: Option<ItemSet>,
    /// The form last served from, or that of the list before the first item.
    pub form: Option<ItemSet>,
    /// Whether that form was proved best.
    pub proved: bool,
    /// Whether the session was closed.
    pub closed: bool,
}
