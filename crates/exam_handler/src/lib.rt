//! Who answers requests and who watches, as traits: what a connection asks for an examination,
//! whoever keeps that. Upward: a handler states what a request does to it, what a look at the
//! examination's health does and what idle time does, and a reply is one that it may give.
#![tactic(auto)]

mod handler;
mod health;
mod observer;

pub use handler::Handler;
pub use health::Health;
pub use observer::Observer;
