//! What a result is for.

/// An answer: its session, its step and its response, each counted from 0.
#[derive(Clone, Copy, Debug, PartialEq, Eq, Hash)]
pub struct Key {
    pub session: u32,
    pub step: u16,
    pub response: u8,
}
