//! The entries of a history.

use bank_tables::ItemSet;

/// Why eligibility was set aside for a session.
#[derive(Clone, Copy, Debug, PartialEq, Eq)]
pub enum Cause {
    /// No form exists with the ineligible items barred.
    NoForm,
    /// The node budget was spent and no form was found.
    Spent,
}

/// The items that are eligible for a session, in each band of abilities of the plan.
#[derive(Clone, Copy, Debug, PartialEq, Eq)]
pub struct Bands {
    /// The number of bands, 1 to 8.
    pub count: u8,
    /// The set of each band. A set past the last band is empty.
    pub sets: [ItemSet; 8],
}

/// The items that an examinee must not get, as those of earlier sittings. A list with no items is
/// none: no session starts with it.
#[derive(Clone, Copy, Debug, PartialEq, Eq)]
pub struct Without {
    /// The items.
    pub items: ItemSet,
    /// A form without them, which shows that there is one.
    pub form: ItemSet,
}

/// One atomic step of an examination. Sessions and steps are counted from 0.
#[derive(Clone, Copy, Debug, PartialEq, Eq)]
pub enum Entry {
    /// A session was started for a booking, with its draw of eligible items in each band, and the
    /// list of items that the examinee must not get, if there is one.
    Started {
        session: u32,
        booking: u64,
        eligible: Bands,
        without: Option<Without>,
    },
    /// Eligibility was set aside for a session in the band of its estimate at a step; `nodes` is
    /// the size of the tree that shows why.
    SetAside {
        session: u32,
        step: u16,
        band: u8,
        cause: Cause,
        nodes: u16,
    },
    /// An item was served from a form, which is proved best or not; `nodes` is the size of the tree
    /// that shows it.
    Served {
        session: u32,
        step: u16,
        item: u16,
        form: ItemSet,
        proved: bool,
        nodes: u16,
    },
    /// The item of a step was answered.
    Answered {
        session: u32,
        step: u16,
        response: u8,
    },
    /// A session was closed before its end.
    Closed {
        session: u32,
    },
}
