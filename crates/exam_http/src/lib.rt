//! An examination over one connection: what a message asks, and the responses that a connection
//! gets for its messages. Upward it promises that the responses written are those to the messages
//! of the connection's bytes, in order, whoever answers the requests, and that a server with a
//! token does nothing for a message that does not bear it. It never opens a connection.
#![tactic(auto)]

mod asked;
mod asking;
mod body;
mod ended;
pub mod laws;
mod message_fault;
mod route;
mod serve;
mod status;
mod terms;
mod texts;
mod token;

pub use asked::Asked;
pub use ended::Ended;
pub use exam_handler::Handler;
pub use message_fault::MessageFault;
pub use route::Route;
pub use serve::serve_connection;
