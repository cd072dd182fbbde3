//! Why no message was read from a link.
ghost use Rattle.std.specs.Prelude.{◌≡◌};
ghost use Rattle.record_links.specs.declared.fault.MessageFault.TheVariants.{Memory as OutOfMemory};

use std::alloc::AllocError;

/// What the other side of a link did that no peer may do.
#[derive(Clone, Copy, Debug, PartialEq, Eq)]
pub enum PeerFault {
    /// A message of a kind that this side doesn't take begins with this byte.
    Kind(u8),
    /// An offer has a payload of this length, in bytes: none, or more than 131,072.
    Length(u32),
    /// The link ended within a message, or before a shipper was done.
    Cut,
    /// A have of this count is above the number of the shipper's records.
    Above(u64),
    /// A shipper of C records has read 2 C + 1 haves, and none of them is C.
    TooManyHaves,
}

/// Why no message was read.
#[derive(Clone, Copy, Debug, PartialEq, Eq)]
pub(crate) enum MessageFault {
    /// The bytes begin with no message of the other side.
    Peer(PeerFault),
    /// The link failed, and has counted that.
    Link,
    /// Out of memory.
    Memory,
}

impl From<AllocError> for MessageFault {
    ghost from_gives = { λ _ e. e ≡ OutOfMemory };

    fn from(_e: AllocError) -> MessageFault {
        MessageFault::Memory
    }
}
