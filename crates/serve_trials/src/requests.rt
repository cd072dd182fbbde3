//! Requests on bank A, and what the trials compare of their replies.

use exam_office::{Place, Refusal, Reply, Request};
use trial_cases::set_of;

/// A request of the trials. A constant can't hold a set of items, so a list is named by its items.
#[derive(Clone, Copy)]
pub(crate) enum Ask {
    Begin(u64),
    BeginWithout(u64, &'static [u16]),
    Answer {
        session: u32,
        step: u16,
        response: u8,
    },
    /// An answer with the booking that the session must have.
    AnswerFor {
        session: u32,
        step: u16,
        response: u8,
        booking: u64,
    },
    Close(u32),
    /// A closing of a session, with the booking that the session must have.
    CloseFor(u32, u64),
    Look(u32),
    Exposure,
}

/// The request.
pub(crate) fn request_of(ask: &Ask) -> Request {
    match *ask {
        Ask::Begin(booking) => Request::Begin(booking),
        Ask::BeginWithout(booking, items) => Request::BeginWithout {
            booking,
            items: set_of(items),
        },
        Ask::Answer {
            session,
            step,
            response,
        } => Request::Answer {
            session,
            step,
            response,
            booking: None,
        },
        Ask::AnswerFor {
            session,
            step,
            response,
            booking,
        } => Request::Answer {
            session,
            step,
            response,
            booking: Some(booking),
        },
        Ask::Close(session) => Request::Close {
            session,
            booking: None,
        },
        Ask::CloseFor(session, booking) => Request::Close {
            session,
            booking: Some(booking),
        },
        Ask::Look(session) => Request::Look(session),
        Ask::Exposure => Request::Exposure,
    }
}

/// A reply without its exposure counts: the session, its place, and whether the session was
/// started; or a refusal. An exposure has the number of finished sessions in place of the session.
pub(crate) type Told = Result<(u32, Place, bool), Refusal>;

/// The part of a reply that the trials compare. Its exposure counts are compared separately.
pub(crate) fn told(reply: &Reply) -> Told {
    match reply {
        Reply::At {
            session,
            place,
            fresh,
        } => Ok((*session, *place, *fresh)),
        Reply::Refused(refusal) => Err(*refusal),
        Reply::Exposure(exposure) => Ok((exposure.finished, Place::Complete, false)),
    }
}

/// The right answer to the first item of session 0.
pub(crate) const FIRST_ANSWER: Ask = Ask::Answer {
    session: 0,
    step: 0,
    response: 1,
};

/// The same, with another booking than that of session 0.
pub(crate) const FIRST_ANSWER_FOR_ANOTHER: Ask = Ask::AnswerFor {
    session: 0,
    step: 0,
    response: 1,
    booking: 71,
};

/// The same, with the booking of session 0.
pub(crate) const FIRST_ANSWER_FOR_70: Ask = Ask::AnswerFor {
    session: 0,
    step: 0,
    response: 1,
    booking: 70,
};

/// The wrong answer to the second item of session 0.
pub(crate) const SECOND_ANSWER: Ask = Ask::Answer {
    session: 0,
    step: 1,
    response: 0,
};

/// The right answer to the third item of session 0.
pub(crate) const THIRD_ANSWER: Ask = Ask::Answer {
    session: 0,
    step: 2,
    response: 1,
};

/// The wrong answer to the first item of session 0.
pub(crate) const OTHER_ANSWER: Ask = Ask::Answer {
    session: 0,
    step: 0,
    response: 0,
};

/// The wrong answer to the first item of session 1.
pub(crate) const LATER_FIRST_ANSWER: Ask = Ask::Answer {
    session: 1,
    step: 0,
    response: 0,
};

/// The wrong answer to the second item of session 1.
pub(crate) const LATER_SECOND_ANSWER: Ask = Ask::Answer {
    session: 1,
    step: 1,
    response: 0,
};

/// The wrong answer to the third item of session 1.
pub(crate) const LATER_THIRD_ANSWER: Ask = Ask::Answer {
    session: 1,
    step: 2,
    response: 0,
};

/// The first item of a session in which no item is ineligible, or eligibility is set aside.
pub(crate) const FIRST: Place = Place::Waiting {
    step: 0,
    item: 2,
    proved: true,
};

pub(crate) const SECOND: Place = Place::Waiting {
    step: 1,
    item: 4,
    proved: true,
};

pub(crate) const THIRD: Place = Place::Waiting {
    step: 2,
    item: 1,
    proved: true,
};

/// The first item of a session in which those three are ineligible.
pub(crate) const LATER_FIRST: Place = Place::Waiting {
    step: 0,
    item: 5,
    proved: true,
};

pub(crate) const LATER_SECOND: Place = Place::Waiting {
    step: 1,
    item: 3,
    proved: true,
};

pub(crate) const LATER_THIRD: Place = Place::Waiting {
    step: 2,
    item: 0,
    proved: true,
};
