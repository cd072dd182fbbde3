//! What to serve next: the problem of an examinee's seat, the item served from a form of it, and
//! the seat after each step (shadow-test approach; van der Linden, Linear Models for Optimal Test
//! Design, 2005). Upward it promises that they are exactly as defined in form_model and
//! serving_model; it assembles no form, keeps no state and takes no memory.
#![tactic(auto)]

mod bar;
mod estimate;
pub mod laws;
mod problem;
mod seat;
mod serving;
mod shown;

pub use ability_grid::Sums;
pub use problem::{next_problem, next_problem_from};
pub use seat::{new_seat, with_item, with_response};
pub use serving::next_item;
pub use serving_model::Seat;
pub use shown::{all_items, number_at, shown_items};
