//! The search for form series: it looks for forms without common items whose least weighted
//! information is as great as can be, and for a tree that shows that no series is better. It works
//! on the *pool*, the sum of the forms: its relaxation has the value of that of the forms, and
//! branches on what is in some form know no order of the forms. On small banks it branches on the
//! forms, of which those of one state count as one. Upward it promises no more than that it is safe
//! and ends: its forms and trees are believed by nobody, and are tested by the separate checker.
//! Its sums are written to wrap, so that they need no proof. It never decides anything.
//!
//! Words: a *table* is the bank and the plan as flat arrays; a *goal* is what each form is to have
//! at each point; a vector is *priced* once its weights are computed; *kept* vectors are those of
//! the tree; a *split* parts a pool into forms; an *arrangement* is a group for each item, the
//! groups being forms, or several forms together, and what is left.
#![tactic(auto)]

mod anneal;
mod arrangement;
mod branching;
mod draws;
mod energy;
mod forms;
mod kinds;
mod known;
mod leaves;
mod model;
mod multipliers;
mod numbers;
mod path;
mod priced;
mod rule;
mod search_call;
mod sweep;
mod table;

pub use kinds::Kinds;
pub use search_call::{Bounded, Searched, search};
pub use series_tree::Memory;
