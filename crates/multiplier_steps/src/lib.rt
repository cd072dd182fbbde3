//! Better multipliers for the bound of a path of branches, by the subgradient steps of
//! `subgradient_steps`. Upward it promises that `climb` and `improve` give vectors that name sides
//! of the plan, and that the bound of the one that `improve` gives is at most that of the vector it
//! began with. Nothing else is promised of the steps but that they are safe and end. What is proved
//! of a bound is in `lagrange_bound`.
#![tactic(auto)]

mod ascent;

pub use ascent::{climb, improve};
pub use proof_tree::Memory;
pub use subgradient_steps::{Aim, Ascent};
