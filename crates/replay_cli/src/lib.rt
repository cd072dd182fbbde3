//! The script of a replay, and the lines that a replay prints: a text is read as a list of
//! requests, and a reply is printed as its line. Upward it promises that a text is read exactly if
//! it is a script, that otherwise the first faulty line is named, and that the text of a reply is
//! the stated one. It knows no history and no bank, and does no request.
#![tactic(auto)]

pub mod laws;
mod line;
mod reply;
mod script;
mod script_fault;

pub use line::request_line;
pub use reply::reply_line;
pub use script::read_script;
pub use script_fault::ScriptFault;
