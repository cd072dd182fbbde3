//! A best form by plain enumeration: each set of as many items as the test has is tried, in banks
//! of at most 16 items. Upward it promises the best form over all sets of items, or that no set is
//! a form; it uses no bound, no branch and no memory, so it is what a search is compared with.
#![tactic(auto)]

mod enumeration;
mod mask;

pub use enumeration::best_form;
