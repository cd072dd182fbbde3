//! What a message asks.

use history_model::Request;

/// What a message asks.
#[derive(Clone, Copy, Debug, PartialEq, Eq)]
pub enum Asked {
    /// Something of the examination.
    Request(Request),
    /// How the examination is.
    Health,
}
