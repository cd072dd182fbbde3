//! Plans, the problems that a form is assembled for, and whether a set of items is a form.
//!
//! Upward it promises that `Spec::of` takes exactly the drafts that are valid for the bank, else
//! names the first fault in a stated order; that `meets` finds none exactly where a set is a form,
//! else the first breach with the value found; that `objective` is the information of a set at the
//! estimate; that `counts` has what a row counts in a set; that `names_only_sides` tests the sides
//! that a vector of multipliers names; that `prices` has what a row's sides put on it and on its
//! bounds; and that `Problem::whole` is the plan's problem at the mode of its prior. It reads no
//! text, searches for no form, and takes no memory but for the text of a fault. Threads may share a
//! plan.
#![tactic(auto)]

mod breaches;
pub mod counts;
mod fault_text;
mod faults;
mod information;
pub mod laws;
pub mod prices;
mod problem;
mod sides;
mod spec;
mod spec_fault;

pub use breaches::{is_form, meets};
pub use faults::front_fault;
pub use form_model::{Breach, Draft, Rate, Row, StimulusBound};
pub use information::objective;
pub use problem::Problem;
pub use sides::names_only_sides;
pub use spec::Spec;
pub use spec_fault::SpecFault;
