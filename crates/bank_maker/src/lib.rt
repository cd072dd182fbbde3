//! The bank, the plan and the script of a drill, made from a number.
//!
//! Upward it promises that the three texts are the stated ones, byte for byte, and that the bank
//! text and the script are read. It reads no text, and does not examine.
#![tactic(auto)]

mod act;
mod bank;
mod draws;
mod drill;
mod item;
pub mod laws;
mod plan;
mod script;

pub use drill::{Made, make};
