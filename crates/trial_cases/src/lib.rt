//! The worked banks and plans that the trials share: banks A, S, E, Q and L as rows and as text,
//! and their plans.
//!
//! It holds data for tests alone, which no crate of the product uses, and promises nothing upward.
#![tactic(auto)]

mod banks;
mod plans;
mod rows;
mod sets;
mod texts;

pub use banks::{bank_a, bank_e, bank_l, bank_q, bank_s};
pub use plans::{PLAN_A, PLAN_E, PLAN_L, PLAN_Q, PLAN_S, draft_a, draft_of};
pub use rows::{item, rows_a, rows_e, rows_l, rows_of, rows_q, rows_s};
pub use sets::set_of;
pub use texts::{BANK_A, bank_text};
