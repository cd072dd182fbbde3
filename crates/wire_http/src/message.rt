//! A message, and why there is none.

ghost use Rattle.std.specs.Prelude.{◌≡◌};
ghost use Rattle.wire_http.specs.declared.message.WireFault.TheVariants.{Memory as OutOfMemory};

use http::Method;
use std::alloc::AllocError;

/// One request.
#[derive(Drop)]
pub struct Message {
    /// The method.
    pub method: Method,
    /// The target up to its first `?`, as bytes.
    pub path: Vec<u8>,
    /// The value of its field Authorization, without white space around it. It is empty if there is
    /// none, and if there are several, which no client may send.
    pub authorization: Vec<u8>,
    /// The body, at most 4,096 bytes.
    pub body: Vec<u8>,
    /// Whether the connection is to be closed after the response.
    pub close: bool,
}

/// Why no message was read.
#[derive(Clone, Copy, Debug, PartialEq, Eq)]
pub enum WireFault {
    /// The bytes begin no head of at most 64 fields, or its length is ill-formed or given twice.
    BadHead,
    /// The first 8,192 bytes have no head.
    HeadTooLong,
    /// The head doesn't give the length of its body.
    NoLength,
    /// The body has more than 4,096 bytes.
    BodyTooLong,
    /// The bytes end within the message.
    Cut,
    /// The link failed, and has counted that.
    Link,
    /// Out of memory.
    Memory,
}

impl From<AllocError> for WireFault {
    ghost from_gives = { λ _ e. e ≡ OutOfMemory };

    fn from(_e: AllocError) -> WireFault {
        WireFault::Memory
    }
}
