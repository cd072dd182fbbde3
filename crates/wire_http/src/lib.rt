//! Requests of HTTP/1.1 and 1.0 from a connection, one message after another, and the text of a
//! response. Upward it promises that what `read_request` gives is a relation on the whole bytes of
//! the connection, so that it doesn't matter in which pieces they come. It gives a message no
//! meaning: a path is bytes, and a body is bytes.
#![tactic(auto)]

mod fields;
mod head;
mod kept;
pub mod laws;
mod message;
mod read;
mod response;

pub use kept::Kept;
pub use message::{Message, WireFault};
pub use read::read_request;
pub use response::response_text;
