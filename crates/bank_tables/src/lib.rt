//! What every crate needs of items: sets of items, lists, limits, the sides of the cap, and the
//! item bank with its accessors.
//!
//! Upward it promises that each set operation is the operation on members, that `Bank::of` takes
//! exactly the rows whose numbers are within their bounds, else names their first fault, and that a
//! bank's accessors give its numbers. Threads may share a bank and a set. It reads no text and
//! calls no device. Only `List::push` takes memory.
#![tactic(auto)]

mod bank;
mod bank_fault;
mod faults;
mod item_set;
pub mod laws;
pub mod limits;
mod list;
mod rows;
mod short;
pub mod sides;

pub use bank::Bank;
pub use bank_fault::BankFault;
pub use item_set::ItemSet;
pub use list::List;
pub use rows::{ItemRow, Rows};
pub use short::Short;
