//! Whoever watches an examination.

use crate::Health;
use exam_edge::OpenGate;

/// Whoever watches an examination for its operator. It is told how the examination is, and changes
/// nothing of it.
pub trait Observer: Drop {
    /// Tells it how the examination is: once its journal was read, after each response, and at the
    /// end of its server.
    // Promise: An observer is told how the examination is, and nothing is promised of what it does
    // - by none
    fn see(&self, health: &Health);
}

impl Observer for OpenGate {
    fn see(&self, _health: &Health) {}
}
