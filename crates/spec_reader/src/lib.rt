//! The plan text both ways: a test blueprint, rule by rule, as the plan of an item bank, and a plan
//! as its canonical text.
//!
//! Upward it promises that a text is read as the plan that it means, valid for the bank, or refused
//! for its first fault, with its line and kind; that what is printed is the canonical text of the
//! plan; and that this text means the same plan. The sets of items of other texts are read and
//! printed by it too. It opens no file, decides nothing about a plan's
//! rules (`constraint_model` does), and never takes a text for another one.
#![tactic(auto)]

mod bounds;
mod drafting;
mod fault_text;
mod keyword;
pub mod laws;
mod line_fault;
mod plan_fault;
mod print;
mod read;
mod rule;
mod rules;
mod runs;
mod sets;

pub use line_fault::Kind;
pub use plan_fault::{Name, PlanFault};
pub use print::{print_plan, push_set};
pub use read::read_plan;
pub use sets::set_of;
