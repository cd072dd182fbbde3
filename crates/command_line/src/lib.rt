//! What the words of a command line ask for. `clap` reads the words.
//!
//! Upward it promises the command that the table of commands has for the words, or that the table
//! has none. Out of memory is its only error. It opens no file and does no command's work.
#![tactic(auto)]

mod command;
pub mod laws;
mod weights;
mod words;

/// The version of the program.
pub const VERSION: &str = "0.14.0";

pub use command::Command;
pub use weights::weights_of;
pub use words::command_of;
