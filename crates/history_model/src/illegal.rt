//! Why a record may not follow a history.

use crate::place::Place;
use certificate_model::Verdict;
use form_model::Breach;

/// The first reason, in this order, that holds for the record's kind.
#[derive(Clone, Copy, Debug, PartialEq, Eq)]
pub enum Illegal {
    /// The session to be started isn't the next one, or isn't below the plan's limit; the number of
    /// sessions.
    NotNumber(u32),
    /// The booking has this session.
    Booked(u32),
    /// The eligible sets aren't the draws: 0 where there isn't one for each band of the plan, else
    /// the lowest item at which the set of some band and its draw differ.
    NotDrawn(u16),
    /// The list of the items that the examinee must not get is empty, or has an item that the bank
    /// hasn't; the number of items of the bank.
    NoItem(u16),
    /// The form of the list is no form of the whole problem with the items of the list barred; its
    /// first breach.
    NotWithout(Breach),
    /// There is no such session; the number of sessions.
    NoSession(u32),
    /// The session doesn't wait for an item, or an item is served at another step than that of the
    /// session; its place.
    NotPending(Place),
    /// Eligibility was set aside before in the band of the estimate.
    IsAside,
    /// Eligibility is to be set aside at another step than that of the session; the session's step.
    NotStep(u16),
    /// It is to be set aside in another band than that of the estimate; the band of the estimate.
    NotBand(u8),
    /// The set of items is no form of the session's problem; its first breach.
    NotForm(Breach),
    /// The item isn't the next item of the form; that item.
    NotItem(u16),
    /// A tree is missing, or there is one where none belongs, or its number of nodes isn't this
    /// one, or it isn't spent where it has to be.
    NotSpent(u16),
    /// The tree doesn't show what is claimed; its verdict.
    Tree(Verdict),
    /// The session doesn't wait for an answer at this step; its place.
    NotWaiting(Place),
    /// The response isn't in the item's range; its number of categories.
    BadResponse(u8),
    /// The session has ended; its place.
    Ended(Place),
}
