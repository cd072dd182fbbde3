//! A session that was begun.

/// The session of a booking, and whether this call started it.
#[derive(Clone, Copy, Debug, PartialEq, Eq)]
pub struct Begun {
    pub session: u32,
    pub fresh: bool,
}
