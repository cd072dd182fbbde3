//! The place of a session.

/// The place of a session.
#[derive(Clone, Copy, Debug, PartialEq, Eq)]
pub enum Place {
    /// The item of this step is to be served.
    Pending(u16),
    /// The item of a step was served and waits for its answer.
    Waiting { step: u16, item: u16, proved: bool },
    /// Each item of the test is answered.
    Complete,
    /// The session was closed before its end.
    Closed,
}
