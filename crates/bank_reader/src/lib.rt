//! The bank text: an item bank from the bytes of a source, by the rules of CSV (RFC 4180).
//!
//! Upward it promises that a text is read exactly where it is in the grammar (`specs/Grammar.antt`,
//! which does not speak of reading), as the bank that it describes, and else refused for its first
//! fault, with its record and column. It opens no file.
#![tactic(auto)]

mod fault;
mod fault_text;
mod fields;
mod header;
mod item;
pub mod laws;
mod read;
mod records;

pub use fault::ReadFault;
pub use read::read_bank;
