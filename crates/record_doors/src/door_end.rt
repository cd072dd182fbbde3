//! How the work at a door ended.

use record_links::Followed;

/// How the work at a door ended, for a follower or for the side that ships.
#[derive(Clone, Copy, Debug, PartialEq, Eq)]
pub enum DoorEnd {
    /// The door gave no other link. A shipper had none; the links of a follower each ended well.
    NoLink,
    /// The door failed, and has counted that.
    DoorFailed,
    /// The last link ended so: for a follower, not well.
    Ended(Followed),
}

/// What comes after one link of a follower.
#[derive(Clone, Copy)]
pub(crate) enum Next {
    /// The next link.
    GoesOn,
    /// None: the work at the door has ended so.
    Over(DoorEnd),
}
