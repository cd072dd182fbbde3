//! How a connection ended.

use wire_http::WireFault;

/// How a connection ended.
#[derive(Clone, Copy, Debug, PartialEq, Eq)]
pub enum Ended {
    /// The link ended between messages, or the last message asked to close.
    Done,
    /// The bytes begin with no message; why not. It is neither `Link` nor `Memory`.
    BadInput(WireFault),
    /// The link failed, and has counted that.
    Link,
    /// Out of memory.
    Memory,
}

/// What is after one message.
#[derive(Clone, Copy, Debug, PartialEq, Eq)]
pub enum AfterMessage {
    /// It was answered, and the connection goes on.
    Answered,
    /// The connection has ended.
    Over(Ended),
}
