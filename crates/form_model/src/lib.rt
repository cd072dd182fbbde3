//! What a reader must believe about forms: plain types, and in specs/ the definitions of plan,
//! problem, form, objective, best form, first breach and posterior mode. Upward it promises the
//! laws over them; it never computes anything.
#![tactic(auto)]

mod breach;
mod draft;
pub mod laws;
mod row;

pub use breach::Breach;
pub use draft::{Draft, Rate};
pub use row::{Row, StimulusBound};
