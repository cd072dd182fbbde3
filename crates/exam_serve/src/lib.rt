//! The work of a server: one office, shared by the connections of many doors. Upward: each link
//! that a door gave was served in order on the door's one pass, and went back to it; what the
//! passes did is one list of marks, which the office has in the end, and of which each that was
//! added is the own of one pass. It opens no door, and promises nothing on time.
#![tactic(auto)]

mod connections;
pub mod laws;
mod serve;
mod stations;

pub use serve::{End, Served, serve_doors};
