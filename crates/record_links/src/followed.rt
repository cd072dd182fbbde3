//! How a link ended.

use crate::PeerFault;

/// How a link ended, for the follower or for the side that ships.
#[derive(Clone, Copy, Debug, PartialEq, Eq)]
pub enum Followed {
    /// The follower has so many records: those that were shipped, or, at the follower, those until
    /// the end of the link.
    Done(u64),
    /// The link failed, and has counted that.
    Link,
    /// The other side sent what no peer may send.
    Peer(PeerFault),
    /// The record of this number was offered, and may not follow.
    Offer(u64),
    /// With the next record the file would have this length, in bytes, above its limit.
    Full(u64),
    /// The record of this number is not there any more: only a log that does not report its records
    /// ends a link so.
    Lost(u64),
    /// The disk failed, and has counted that.
    Disk,
    /// Out of memory.
    Memory,
}

/// What comes after one message.
#[derive(Clone, Copy)]
pub(crate) enum Turn {
    /// The next one.
    GoesOn,
    /// None: the link has ended so.
    Over(Followed),
}
