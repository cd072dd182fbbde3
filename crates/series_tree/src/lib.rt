//! Series trees: what an assembler of form series hands over so that a separate checker can show
//! that a series is best. A tree is vectors of Lagrange multipliers and nodes of branch and bound
//! over several forms, and has one spelling in bytes. Upward it promises that what is written is
//! read again whatever follows, that what is read was spelled so, and where each fault is; it never
//! judges what a tree shows.
#![tactic(auto)]

pub mod laws;
mod reading;
mod shape;
mod tree;
mod vector;
mod writing;

pub use proof_tree::TreeFault;
pub use reading::decode_series;
pub use series_model::SeriesNode;
pub use shape::{has_open_leaf, is_branch};
pub use std::alloc::AllocError as Memory;
pub use tree::{SeriesTree, names_pool};
pub use vector::SeriesVector;
pub use writing::encode_series;
