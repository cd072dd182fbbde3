//! Proof trees: what an assembler hands over so that a separate checker can show that a form is
//! best. A tree is vectors of Lagrange multipliers and nodes of branch and bound, and has one
//! spelling in bytes. Upward it promises that what is written is read again whatever follows, that
//! what is read was spelled so, and where each fault is; it never judges what a tree shows.
#![tactic(auto)]

mod fault;
pub mod laws;
mod reading;
mod shape;
mod tree;
mod vector;
mod writing;

pub use certificate_model::Node;
pub use fault::TreeFault;
pub use reading::decode;
pub use shape::{has_open_leaf, is_branch};
pub use std::alloc::AllocError as Memory;
pub use tree::Tree;
pub use vector::Vector;
pub use writing::encode;
