//! Whole-number subgradient steps towards better multipliers for the bound of a path of branches.
//! Nothing is promised of them but that they are safe and end: their sums are written to wrap, a
//! bound that they compute is believed by nobody, and that they lower it is measured.
//! `multiplier_steps` tests the vector that they give, and `lagrange_bound` has what is proved of a
//! bound.
#![tactic(auto)]

mod aim;
mod choice;
mod coefficients;
mod constraints;
mod direction;
mod problem;
mod ranking;
mod selection;
mod step_size;
mod stimuli;
mod subgradient;
mod threshold;

pub use aim::{Aim, Ascent};
pub use proof_tree::Memory;
pub use subgradient::steps_from;
